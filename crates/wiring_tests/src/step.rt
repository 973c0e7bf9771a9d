// Calls with the answers that they must get.
use chart::numbers::MessageId;
use delivery::meaning::Delivery;
use delivery::parcel::{Parcel, Tag};
use delivery::refusal::{Accepted, PutRefusal, TakeRefusal};
use delivery::station::Station;
use std::process::Abort;
use std::test::*;

pub(crate) enum Step {
    // message, sender, receiver: accepted
    Put(u16, u16, u16),
    Refused(u16, u16, u16, PutRefusal),
    // message, and the sender and receiver that it comes with
    Take(u16, u16, u16),
    Stays(u16, TakeRefusal),
    // so many wait
    Count(usize),
    Waits(u16, bool),
}

pub(crate) fn tag(sender: u16, receiver: u16) -> Result<Tag, Fail> {
    Ok(Tag {
        sender: Station::try_from(sender)?,
        receiver: Station::try_from(receiver)?,
    })
}

fn parcel(message: u16, sender: u16, receiver: u16) -> Result<Parcel, Fail> {
    Ok(Parcel {
        message: MessageId(message),
        tag: tag(sender, receiver)?,
    })
}

fn perform<D: Delivery>(rt: &impl Abort, delivery: &mut D, step: &Step) -> Result<(), Fail> {
    match step {
        Step::Put(n, from, to) => {
            assert_eq!(rt; delivery.put(parcel(*n, *from, *to)?), Ok(Accepted));
        }
        Step::Refused(n, from, to, why) => {
            assert_eq!(rt; delivery.put(parcel(*n, *from, *to)?), Err(*why));
        }
        Step::Take(n, from, to) => {
            assert_eq!(rt; delivery.take(MessageId(*n)), Ok(parcel(*n, *from, *to)?));
        }
        Step::Stays(n, why) => {
            assert_eq!(rt; delivery.take(MessageId(*n)), Err(*why));
        }
        Step::Count(count) => {
            assert_eq!(rt; delivery.count(), *count);
        }
        Step::Waits(n, answer) => {
            assert_eq!(rt; delivery.waits(MessageId(*n)), *answer);
        }
    }
    Ok(())
}

pub(crate) fn play<D: Delivery>(
    rt: &impl Abort,
    delivery: &mut D,
    steps: &[Step],
) -> Result<(), Fail> {
    delivery.empty();
    for step in steps {
        perform(rt, delivery, step)?;
    }
    Ok(())
}
