// A tag holds those of the same sender and receiver: each pair of instances has a FIFO channel of its own.
ghost use Rattle.wirings.specs.Rules.{same_pair};
ghost use Rattle.std.proofs.Common.{rules};

use crate::hold_rule::HoldRule;
use delivery::parcel::Tag;

#[derive(Clone, Copy, Default)]
pub struct SamePair;

impl HoldRule for SamePair {
    ghost held = { λ _. same_pair };

    ghost carries = { Prim.search rules };

    fn holds(&self, first: Tag, second: Tag) -> bool {
        first == second
    }
}
