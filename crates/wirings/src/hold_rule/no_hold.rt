// No tag holds another: parcels may be taken in any order.
ghost use Rattle.wirings.specs.Rules.{no_hold};
ghost use Rattle.std.proofs.Common.{rules};

use crate::hold_rule::HoldRule;
use delivery::parcel::Tag;

#[derive(Clone, Copy, Default)]
pub struct NoHold;

impl HoldRule for NoHold {
    ghost held = { λ _. no_hold };

    ghost carries = { Prim.search rules };

    fn holds(&self, _first: Tag, _second: Tag) -> bool {
        false
    }
}
