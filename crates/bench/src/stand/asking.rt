// What can be seen of a bench, and how it is taken apart.
ghost use Rattle.std.specs.Prelude.{◌≡◌, length};
ghost use Rattle.chart.specs.Charted.{line_of};
ghost use Rattle.bench.specs.Benches.{OnSound};

use super::Bench;
use chart::charting::asking::Line;
use chart::numbers::EventId;
use delivery::meaning::Delivery;

impl<D> Bench<D> {
    // The record: the events that were fired since the opening or the last clear, in order.
    pub fn fired(&self) -> &[EventId]
        ensures { result.now ≡ self.now.log.fired.items }
    {
        &self.log.fired
    }

    // How many events of the play were fired; none while no play is open.
    pub fn progress(&self) -> Option<usize>
        ensures { result ≡ self.now.play.done }
    {
        self.play.done
    }

    pub fn delivery(&self) -> &D
        ensures { result.now ≡ self.now.delivery }
    {
        &self.delivery
    }

    pub fn into_delivery(self) -> D
        ensures { result ≡ self.delivery }
    {
        self.delivery
    }
}

impl<D: Delivery> Bench<D> {
    // How many messages wait.
    pub fn waiting_count(&self) -> usize
        ensures { OnSound D.Delivery self.now self.now (λ g s t. result ≡ length s.waiting) }
    {
        self.delivery.count()
    }

    pub fn event_count(&self) -> usize
        ensures { OnSound D.Delivery self.now self.now (λ g s t. result ≡ length g.chart.events) }
    {
        self.log.layout.places.len()
    }

    // The instance, side and message of an event, if the chart has it.
    pub fn line(&self, event: EventId) -> Option<Line>
        ensures { OnSound D.Delivery self.now self.now (λ g s t. result ≡ line_of g.chart event.0) }
    {
        self.log.layout.at(event).map(|place| place.line)
    }
}
