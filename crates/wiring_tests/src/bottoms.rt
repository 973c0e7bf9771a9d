// The four bottoms.
use crate::step::{Step, play, tag};
use chart::numbers::MessageId;
use delivery::meaning::Delivery;
use delivery::refusal::{PutRefusal, TakeRefusal};
use std::test::*;
use wirings::bottoms::{Bag, Mailbox, Meeting, PairedLine};

#[test]
fn bag_gives_parcels_in_any_order(rt: HostRuntime) -> Result<(), Fail> {
    let mut bag = Bag::new(rt.alloc())?;
    play(
        &rt,
        &mut bag,
        &[
            Step::Put(0, 0, 1),
            Step::Put(1, 0, 1),
            Step::Put(63, 2, 1),
            Step::Refused(64, 0, 1, PutRefusal::Far { layer: 0 }),
            Step::Refused(1, 0, 2, PutRefusal::Double { layer: 0 }),
            Step::Take(63, 2, 1),
            Step::Take(0, 0, 1),
            Step::Stays(0, TakeRefusal::Absent { layer: 0 }),
            Step::Stays(64, TakeRefusal::Absent { layer: 0 }),
            Step::Waits(1, true),
            Step::Waits(0, false),
            Step::Count(1),
        ],
    )
}

#[test]
fn paired_line_keeps_the_order_of_each_pair(rt: HostRuntime) -> Result<(), Fail> {
    let mut line = PairedLine::new(rt.alloc())?;
    play(
        &rt,
        &mut line,
        &[
            Step::Put(0, 0, 1),
            Step::Put(1, 0, 1),
            Step::Put(2, 2, 1),
            Step::Put(3, 0, 2),
            Step::Put(4, 0, 1),
            Step::Stays(
                1,
                TakeRefusal::Held {
                    by: MessageId(0),
                    layer: 0,
                },
            ),
            Step::Stays(
                4,
                TakeRefusal::Held {
                    by: MessageId(0),
                    layer: 0,
                },
            ),
            Step::Take(2, 2, 1),
            Step::Take(3, 0, 2),
            Step::Take(0, 0, 1),
            Step::Stays(
                4,
                TakeRefusal::Held {
                    by: MessageId(1),
                    layer: 0,
                },
            ),
            Step::Take(1, 0, 1),
        ],
    )
}

#[test]
fn mailbox_keeps_the_order_of_each_receiver(rt: HostRuntime) -> Result<(), Fail> {
    let mut mailbox = Mailbox::new(rt.alloc())?;
    play(
        &rt,
        &mut mailbox,
        &[
            Step::Put(5, 0, 1),
            Step::Put(1, 2, 1),
            Step::Put(2, 0, 2),
            Step::Put(3, 3, 1),
            Step::Stays(
                3,
                TakeRefusal::Held {
                    by: MessageId(5),
                    layer: 0,
                },
            ),
            Step::Take(2, 0, 2),
            Step::Take(5, 0, 1),
            Step::Stays(
                3,
                TakeRefusal::Held {
                    by: MessageId(1),
                    layer: 0,
                },
            ),
            Step::Take(1, 2, 1),
            Step::Take(3, 3, 1),
            Step::Count(0),
        ],
    )
}

#[test]
fn meeting_has_room_for_one(rt: HostRuntime) -> Result<(), Fail> {
    let mut meeting = Meeting::one_at_a_time(rt.alloc())?;
    play(
        &rt,
        &mut meeting,
        &[
            Step::Put(0, 0, 1),
            Step::Refused(1, 0, 1, PutRefusal::Full { layer: 0 }),
            Step::Refused(0, 0, 1, PutRefusal::Double { layer: 0 }),
            Step::Refused(64, 0, 1, PutRefusal::Far { layer: 0 }),
            Step::Count(1),
            Step::Take(0, 0, 1),
            Step::Put(1, 0, 1),
        ],
    )
}

#[test]
fn bottoms_tell_their_rule_and_capacity(rt: HostRuntime) -> Result<(), Fail> {
    let bag = Bag::new(rt.alloc())?;
    let line = PairedLine::new(rt.alloc())?;
    let mailbox = Mailbox::new(rt.alloc())?;
    let meeting = Meeting::one_at_a_time(rt.alloc())?;
    assert_eq!(rt; bag.capacity(), 64);
    assert_eq!(rt; line.capacity(), 64);
    assert_eq!(rt; mailbox.capacity(), 64);
    assert_eq!(rt; meeting.capacity(), 1);
    assert!(rt; !bag.holds(tag(0, 1)?, tag(0, 1)?));
    assert!(rt; line.holds(tag(0, 1)?, tag(0, 1)?));
    assert!(rt; !line.holds(tag(2, 1)?, tag(0, 1)?));
    assert!(rt; mailbox.holds(tag(2, 1)?, tag(0, 1)?));
    assert!(rt; !mailbox.holds(tag(0, 2)?, tag(0, 1)?));
    assert!(rt; !meeting.holds(tag(0, 1)?, tag(0, 1)?));
    Ok(())
}
