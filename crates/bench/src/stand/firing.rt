// Firing events, and clearing the bench.
ghost use Rattle.std.specs.Prelude.{◌≡◌};
ghost use Rattle.bench.specs.Benches.{Same, Remains, OnSound, state_of};
ghost use Rattle.bench.specs.Firings.{Tried, Fired, ByRules, Cleared};

use super::Bench;
use crate::handing::hand_over;
use crate::refusal::{Firing, Refusal};
use chart::numbers::EventId;
use delivery::meaning::Delivery;

impl<D: Delivery> Bench<D> {
    // Fires an event, whether or not a play is open.
    pub(super) fn fire_next(&mut self, event: EventId) -> Result<(), Refusal>
        ensures same { Same D.Delivery self.old self.new }
        ensures starts { D.Delivery.started self.old.delivery → D.Delivery.started self.new.delivery }
        ensures play { self.new.play ≡ self.old.play }
        ensures fires { OnSound D.Delivery self.old self.new (λ g s t. Tried g s event result t) }
    {
        let place = self
            .log
            .layout
            .at(event)
            .ok_or(Refusal::NotInChart { event })?;
        let firing = Firing {
            event,
            instance: place.line.instance,
            message: place.line.message,
        };
        let unfired = |obstacle| Refusal::Unfired { firing, obstacle };
        self.log.admits(event, place).map_err(unfired)?;
        hand_over(&mut self.delivery, place).map_err(unfired)?;
        self.log.push(event);
        Ok(())
    }

    // An out event is put, and an in event taken, once the record has all that it needs.
    pub fn fire(&mut self, event: EventId) -> Result<(), Refusal>
        ensures remains { Remains D.Delivery self.old self.new }
        ensures fires { OnSound D.Delivery self.old self.new (λ g s t. Fired g s event result t) }
        ensures by_rules { OnSound D.Delivery self.old self.new (λ g s t. ByRules g s event result) }
    {
        self.play.must_be_closed()?;
        self.fire_next(event)
    }

    // The record and the delivery become empty.
    pub fn clear(&mut self) -> Result<(), Refusal>
        ensures remains { Remains D.Delivery self.old self.new }
        ensures clears { Cleared (state_of D.Delivery self.old) result (state_of D.Delivery self.new) }
    {
        self.play.must_be_closed()?;
        self.log.fired.clear();
        self.delivery.empty();
        Ok(())
    }
}
