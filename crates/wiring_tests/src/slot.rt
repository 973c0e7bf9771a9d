// A delivery as somebody else might write it, from the meaning alone: a slot for one parcel, which knows no layers of ours.
ghost use Rattle.std.specs.Prelude.{false};
ghost use Rattle.std.specs.Option.{option_to_list};
ghost use Rattle.std.proofs.Common.{rules};

use chart::numbers::MessageId;
use delivery::limits::MESSAGE_LIMIT;
use delivery::meaning::Delivery;
use delivery::parcel::{Parcel, Tag};
use delivery::refusal::{Accepted, PutRefusal, TakeRefusal};

#[derive(Drop)]
struct Slot {
    parcel: Option<Parcel>,
    // what it names in every refusal
    layer: u8,
}

impl Delivery for Slot {
    ghost waiting = { λ s. option_to_list s.parcel };

    ghost rule = { λ _ _ _. false };

    ghost room = { λ _. 1 };

    ghost started = { λ _. Unit {0} };

    ghost transitive = { Prim.search rules };

    ghost some = { Prim.search rules };

    ghost few = { Prim.search rules };

    ghost fits = { Prim.search rules };

    ghost once = { Prim.search rules };

    fn put(&mut self, parcel: Parcel) -> Result<Accepted, PutRefusal> {
        if parcel.message.0 >= MESSAGE_LIMIT {
            return Err(PutRefusal::Far { layer: self.layer });
        }
        if self.waits(parcel.message) {
            return Err(PutRefusal::Double { layer: self.layer });
        }
        if self.parcel.is_some() {
            return Err(PutRefusal::Full { layer: self.layer });
        }
        self.parcel = Some(parcel);
        Ok(Accepted)
    }

    fn take(&mut self, message: MessageId) -> Result<Parcel, TakeRefusal> {
        if !self.waits(message) {
            return Err(TakeRefusal::Absent { layer: self.layer });
        }
        self.parcel
            .take()
            .ok_or(TakeRefusal::Absent { layer: self.layer })
    }

    fn empty(&mut self) {
        self.parcel = None;
    }

    fn count(&self) -> usize {
        self.parcel.is_some() as usize
    }

    fn waits(&self, message: MessageId) -> bool {
        self.parcel
            .is_some_and(|waiting| waiting.message == message)
    }

    fn holds(&self, _first: Tag, _second: Tag) -> bool {
        false
    }

    fn capacity(&self) -> u16 {
        1
    }
}

#[cfg(test)]
use crate::piles::bound;
#[cfg(test)]
use crate::step::{Step, play};
#[cfg(test)]
use std::test::*;

// The count of layers stops at 255, and a stranger's layers are passed on like ours.
#[test]
fn layers_stop_at_255(rt: HostRuntime) -> Result<(), Fail> {
    let slot = Slot {
        parcel: None,
        layer: 254,
    };
    let mut pile = bound(bound(slot, 2)?, 3)?;
    play(
        &rt,
        &mut pile,
        &[
            Step::Put(0, 0, 1),
            Step::Refused(1, 0, 1, PutRefusal::Full { layer: 255 }),
            Step::Stays(1, TakeRefusal::Absent { layer: 255 }),
            Step::Take(0, 0, 1),
        ],
    )
}
