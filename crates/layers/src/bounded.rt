// A bound over any delivery.
ghost use Rattle.std.specs.Prelude.{◌≡◌, ◌≤◌, min, length};
ghost use Rattle.layers.specs.Layers.{bound_layer, shut_at};
ghost use Rattle.layers.specs.Made.{BoundMade};
ghost use Rattle.std.proofs.Common.{arith};

use crate::bound::Bound;
use crate::deeper::told;
use crate::unbuilt::Unbuilt;
use chart::numbers::MessageId;
use delivery::limits::MESSAGE_LIMIT;
use delivery::meaning::Delivery;
use delivery::parcel::{Parcel, Tag};
use delivery::refusal::{Accepted, PutRefusal, TakeRefusal};

impl<D: Delivery> Bound<D> {
    // A bound is 1 to 64; for another number the delivery comes back.
    pub fn new(below: D, number: u16) -> Result<Bound<D>, Unbuilt<D>>
        ensures { BoundMade below number result }
    {
        if !(1..=MESSAGE_LIMIT).contains(&number) {
            return Err(Unbuilt::BoundNumber { number, below });
        }
        Ok(Bound {
            below,
            limit: number,
        })
    }

    // Takes the layer off.
    pub fn into_below(self) -> D
        ensures { result ≡ self.below }
    {
        let Bound { below, .. } = self;
        below
    }

    // Whether the bound itself refuses a parcel of this message as full. Far and double go before full, and are told from below.
    fn shut(&self, message: MessageId) -> bool
        ensures { D.started self.now.below → result ≡ shut_at self.now.limit message.0 (D.waiting self.now.below) }
    {
        message.0 < MESSAGE_LIMIT
            && !self.below.waits(message)
            && self.below.count() >= self.limit as usize
    }
}

impl<D: Delivery> Delivery for Bound<D> {
    ghost waiting = { λ s. D.waiting s.below };

    ghost rule = { λ s. D.rule s.below };

    ghost room = { λ s. min s.limit (D.room s.below) };

    ghost started = { λ s. D.started s.below × length (D.waiting s.below) ≤ s.limit };

    ghost layer = { λ s count. bound_layer s.limit count (D.layer s.below count) };

    ghost transitive = { λ s. D.transitive s.below };

    ghost some = { λ s. Prim.omega (arith, D.some s.below, s.some) };

    ghost few = { λ s. Prim.omega (arith, D.few s.below) };

    ghost fits = { λ s a. Prim.omega (arith, D.fits s.below a.0, a.1) };

    ghost once = { λ s a. D.once s.below a.0 };

    #[tactic(auto, using(crate::proofs::Bounds::bound_puts))]
    fn put(&mut self, parcel: Parcel) -> Result<Accepted, PutRefusal> {
        if self.shut(parcel.message) {
            return Err(PutRefusal::Full { layer: 0 });
        }
        told(self.below.put(parcel))
    }

    #[tactic(auto, using(crate::proofs::Bounds::bound_takes))]
    fn take(&mut self, message: MessageId) -> Result<Parcel, TakeRefusal> {
        told(self.below.take(message))
    }

    fn empty(&mut self) {
        self.below.empty();
    }

    fn count(&self) -> usize {
        self.below.count()
    }

    fn waits(&self, message: MessageId) -> bool {
        self.below.waits(message)
    }

    fn holds(&self, first: Tag, second: Tag) -> bool {
        self.below.holds(first, second)
    }

    fn capacity(&self) -> u16 {
        self.limit.min(self.below.capacity())
    }
}
