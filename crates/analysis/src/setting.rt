// What is analyzed: a chart over a delivery.
ghost use Rattle.std.specs.Prelude.{◌≡◌, ◌<◌, ◌&&◌, ◌==◌, length, nat_lt};
ghost use Rattle.chart.specs.Charted.{content};
ghost use Rattle.chart.specs.Content.{message_of};
ghost use Rattle.chart.specs.Shown.{happening};
ghost use Rattle.matrix.specs.Places.{place_of, message_limit};
ghost use Rattle.order.specs.Scenes.{instance_of, event_at, tag_of};

use chart::charting::Chart;
use chart::numbers::{EventId, InstanceId, MessageId};
use chart::pieces::Event;
use delivery::parcel::Tag;
use matrix::places::Place;
use order::tags::tag_of;

// Each method asks of the chart that it has what is asked about, and no type says so instead: a number that is surely inside
// would have to carry the chart that it is inside of, which stands here already.
#[derive_where(Clone, Copy)]
pub(crate) struct Setting<'a, D> {
    pub(crate) chart: &'a Chart,
    pub(crate) delivery: &'a D,
}

impl<'a, D> Setting<'a, D> {
    pub(crate) fn event_at(&self, number: EventId) -> Event
        requires { number.0 < length (content self.now.chart.now).events }
        ensures { happening result ≡ event_at (content self.now.chart.now) number.0 }
    {
        self.chart.events()[number.0 as usize]
    }

    pub(crate) fn message_at(&self, number: EventId) -> MessageId
        requires { number.0 < length (content self.now.chart.now).events }
        ensures { result.0 ≡ message_of (event_at (content self.now.chart.now) number.0) }
    {
        self.event_at(number).message()
    }

    pub(crate) fn instance_of(&self, event: Event) -> InstanceId
        requires { message_of (happening event) < length (content self.now.chart.now).messages }
        ensures { result.0 ≡ instance_of (content self.now.chart.now) (happening event) }
    {
        let ends = &self.chart.messages()[event.message().0 as usize];
        ends.instance_at(event.side())
    }

    // Whether both stand at one instance, the first above the second.
    pub(crate) fn is_pair(&self, first: EventId, second: EventId) -> bool
        requires first_inside { first.0 < length (content self.now.chart.now).events }
        requires second_inside { second.0 < length (content self.now.chart.now).events }
        ensures { result ≡ (nat_lt first.0 second.0 && instance_of (content self.now.chart.now) (event_at (content self.now.chart.now) first.0) == instance_of (content self.now.chart.now) (event_at (content self.now.chart.now) second.0)) }
    {
        first.0 < second.0
            && self.instance_of(self.event_at(first)) == self.instance_of(self.event_at(second))
    }

    pub(crate) fn tag_at(&self, message: MessageId) -> Tag
        requires { message.0 < length (content self.now.chart.now).messages }
        ensures { result ≡ tag_of (content self.now.chart.now) message.0 }
    {
        tag_of(self.chart, message).unwrap()
    }
}

pub(crate) fn place_of(event: Event) -> Place
    requires { message_of (happening event) < message_limit }
    ensures { result.number ≡ place_of (happening event) }
{
    Place::of(event).unwrap()
}
