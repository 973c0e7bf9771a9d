// A tag holds those of the same receiver: each instance has one FIFO queue for all that it receives.
ghost use Rattle.wirings.specs.Rules.{same_receiver};
ghost use Rattle.std.proofs.Common.{rules};

use crate::hold_rule::HoldRule;
use delivery::parcel::Tag;

#[derive(Clone, Copy, Default)]
pub struct SameReceiver;

impl HoldRule for SameReceiver {
    ghost held = { λ _. same_receiver };

    ghost carries = { Prim.search rules };

    fn holds(&self, first: Tag, second: Tag) -> bool {
        first.receiver == second.receiver
    }
}
