// A queue over any hold rule as a delivery.
ghost use Rattle.std.specs.Prelude.{◌≡◌, ◌≤◌, [], IfOk, Some};
ghost use Rattle.delivery.specs.Waiting.{message_limit};
ghost use Rattle.std.proofs.Common.{rules};

use crate::hold_rule::HoldRule;
use crate::queue::Queue;
use crate::search::{first_holding, place_of, waits_among};
use chart::numbers::MessageId;
use delivery::limits::MESSAGE_LIMIT;
use delivery::meaning::Delivery;
use delivery::parcel::{Parcel, Tag};
use delivery::refusal::{Accepted, PutRefusal, TakeRefusal};
use std::alloc::{AllocError, Global};

impl<R: HoldRule + Drop> Queue<R> {
    // An empty queue over this rule, which may keep data; refused only if there is no memory for as many parcels as may wait.
    pub(crate) fn with_capacity(
        heap: Global,
        rule: R,
        capacity: u16,
    ) -> Result<Queue<R>, AllocError>
        requires { (1 ≤ capacity) × (capacity ≤ message_limit) }
        ensures { IfOk result (λ q. (q.rule ≡ rule) × (q.capacity ≡ capacity) × (q.parcels.items ≡ [])) }
    {
        let parcels = Vec::with_capacity(heap, capacity as usize)?;
        Ok(Queue {
            rule,
            capacity,
            parcels,
        })
    }
}

impl<R: HoldRule + Default + Drop> Queue<R> {
    // An empty queue for as many parcels as there can be messages; refused only if there is no memory for them.
    pub fn new(heap: Global) -> Result<Queue<R>, AllocError>
        ensures { IfOk result (λ q. R.is_default q.rule × (q.capacity ≡ message_limit) × (q.parcels.items ≡ [])) }
    {
        Queue::with_capacity(heap, R::default(), MESSAGE_LIMIT)
    }

    // An empty queue for one parcel: the next is accepted only when the last has been taken.
    pub fn one_at_a_time(heap: Global) -> Result<Queue<R>, AllocError>
        ensures { IfOk result (λ q. R.is_default q.rule × (q.capacity ≡ 1) × (q.parcels.items ≡ [])) }
    {
        Queue::with_capacity(heap, R::default(), 1)
    }
}

impl<R: HoldRule> Delivery for Queue<R> {
    ghost waiting = { λ s. s.parcels.items };

    ghost rule = { λ s. R.held s.rule };

    ghost room = { λ s. s.capacity };

    ghost started = { λ _. Unit {0} };

    ghost layer = { λ _ _ _. Some 0 };

    ghost transitive = { λ s. R.carries s.rule };

    ghost some = { λ s. s.some };

    ghost few = { λ s. s.few };

    ghost fits = { Prim.search rules };

    ghost once = { λ s _. s.once };

    #[tactic(auto, using(delivery::proofs::Distinct::distinct_push))]
    fn put(&mut self, parcel: Parcel) -> Result<Accepted, PutRefusal> {
        if parcel.message.0 >= MESSAGE_LIMIT {
            return Err(PutRefusal::Far { layer: 0 });
        }
        if waits_among(&self.parcels, parcel.message) {
            return Err(PutRefusal::Double { layer: 0 });
        }
        if self.parcels.len() >= self.capacity as usize {
            return Err(PutRefusal::Full { layer: 0 });
        }
        self.parcels.push_reserved(parcel);
        Ok(Accepted)
    }

    #[tactic(auto, using(crate::proofs::Walks::standing))]
    fn take(&mut self, message: MessageId) -> Result<Parcel, TakeRefusal> {
        let Some(i) = place_of(&self.parcels, message) else {
            return Err(TakeRefusal::Absent { layer: 0 });
        };
        let parcel = self.parcels[i];
        if let Some(by) = first_holding(&self.rule, &self.parcels[..i], parcel.tag) {
            return Err(TakeRefusal::Held { by, layer: 0 });
        }
        self.parcels.remove(i);
        Ok(parcel)
    }

    fn empty(&mut self) {
        self.parcels.clear();
    }

    fn count(&self) -> usize {
        self.parcels.len()
    }

    fn waits(&self, message: MessageId) -> bool {
        waits_among(&self.parcels, message)
    }

    fn holds(&self, first: Tag, second: Tag) -> bool {
        self.rule.holds(first, second)
    }

    fn capacity(&self) -> u16 {
        self.capacity
    }
}
