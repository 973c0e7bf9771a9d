// A bench's own copy of a chart's numbers.
ghost use Rattle.std.specs.Prelude.{◌≡◌, ◌<◌, ◌&&◌, length, IfOk, ◌==◌, nat_lt, slice_get};
ghost use Rattle.chart.specs.Charted.{content};
ghost use Rattle.chart.specs.Content.{sent, message_of};
ghost use Rattle.order.specs.Pass.{same};
ghost use Rattle.order.specs.Scenes.{event_at, instance_of};
ghost use Rattle.bench.specs.Layouts.{placed, copied, OnCopy};

use chart::charting::Chart;
use chart::charting::asking::Line;
use chart::numbers::{EventId, InstanceId, MessageId};
use chart::pieces::Side;
use delivery::parcel::Tag;
use order::tags::tag_of;
use std::alloc::{AllocError, Global};

// An event as it is drawn, with the tag of its message.
#[derive(Clone, Copy)]
pub(crate) struct Placed {
    pub line: Line,
    pub tag: Tag,
}

// The events of a chart by their numbers.
#[derive(Drop)]
pub(crate) struct Layout {
    pub places: Vec<Placed>,
}

// An event of the chart; its invariant says that each event has a line and each line a tag.
fn place_of(chart: &Chart, event: EventId) -> Placed
    requires { event.0 < length (content chart.now).events }
    ensures { result ≡ placed (content chart.now) (event_at (content chart.now) event.0) }
{
    let line = chart.line(event).unwrap();
    let tag = tag_of(chart, line.message).unwrap();
    Placed { line, tag }
}

impl Layout {
    pub(crate) fn copy(heap: Global, chart: &Chart) -> Result<Layout, AllocError>
        ensures { IfOk result (λ l. l.places.items ≡ copied (content chart.now)) }
    {
        let places = (0..chart.events().len() as u16)
            .map(|number| place_of(chart, EventId(number)))
            .collect(heap)?;
        Ok(Layout { places })
    }

    pub(crate) fn at(&self, event: EventId) -> Option<Placed>
        ensures { result ≡ slice_get self.now.places.items event.0 }
    {
        self.places.get(event.0 as usize).copied()
    }

    // Whether it is an event of the chart, at this instance.
    pub(crate) fn stands_at(&self, event: EventId, instance: InstanceId) -> bool
        ensures { OnCopy self.now (λ c. result ≡ (nat_lt event.0 (length c.events) && instance_of c (event_at c event.0) == instance.0)) }
    {
        self.at(event)
            .is_some_and(|place| place.line.instance == instance)
    }

    // Whether it is an event of the chart, with this message. One call of the library as above: a function over both
    // would take the field as a closure, and be no shorter.
    pub(crate) fn belongs_to(&self, event: EventId, message: MessageId) -> bool
        ensures { OnCopy self.now (λ c. result ≡ (nat_lt event.0 (length c.events) && message_of (event_at c event.0) == message.0)) }
    {
        self.at(event)
            .is_some_and(|place| place.line.message == message)
    }

    // Whether it is the out event of a message of the chart.
    pub(crate) fn sends(&self, event: EventId, message: MessageId) -> bool
        ensures { OnCopy self.now (λ c. result ≡ (nat_lt event.0 (length c.events) && same (sent message.0) (event_at c event.0))) }
    {
        self.at(event).is_some_and(|place| place.line.side == Side::Out
            && place.line.message == message)
    }
}
