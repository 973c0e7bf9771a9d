// Whether two events are a reversible pair, told by the filled matrix.
ghost use Rattle.std.specs.Prelude.{◌≡◌, ◌<◌, length};
ghost use Rattle.chart.specs.Charted.{content};
ghost use Rattle.chart.specs.Content.{Happening, message_of};
ghost use Rattle.chart.specs.Shown.{happening};
ghost use Rattle.matrix.specs.Places.{place_of, message_limit};
ghost use Rattle.matrix.specs.Models.{has};
ghost use Rattle.analysis.specs.Judging.{Foresees, is_held, crowd_in, turns_in};
ghost use Rattle.analysis.specs.Settings.{scene, is_race};

use crate::setting::{Setting, place_of};
use crate::survey::Survey;
use chart::numbers::{EventId, MessageId};
use chart::pieces::Event;
use delivery::meaning::Delivery;
use matrix::sets::EventSet;

// What all pairs with the same first event share: the events after the out event of its message,
// and the out events of the messages that this one holds. That it foresees (`Foresees`) is asked by contracts and is no ghost field:
// this would need the survey in here, and so bring `D` into `Sweep` and into each definition that speaks of a prospect.
#[derive(Clone, Copy)]
pub(crate) struct Prospect {
    pub(crate) first: EventId,
    pub(crate) after: EventSet,
    pub(crate) held: EventSet,
}

impl<'a, D: Delivery> Setting<'a, D> {
    fn hold_row(&self, message: MessageId) -> EventSet
        requires { message.0 < length (content self.now.chart.now).messages }
        ensures { (e : Happening) → has result (place_of e) ≡ is_held ((scene D.rule D.room self.now).holds message.0) (length (content self.now.chart.now).messages) e }
    {
        let tag = self.tag_at(message);
        let mut row = EventSet::empty();
        // Over numbers: a message's number is its place, and `tag_at` takes a number.
        for h in 0..self.chart.messages().len() {
            let held = MessageId(h as u16);
            if self.delivery.holds(tag, self.tag_at(held)) {
                row.insert(place_of(Event::Out(held)));
            }
        }
        row
    }
}

impl<'a, D: Delivery> Survey<'a, D> {
    pub(crate) fn prospect_of(&self, first: EventId) -> Prospect
        requires { first.0 < length (content self.now.setting.chart.now).events }
        ensures foresees { Foresees (content self.now.setting.chart.now) (scene D.rule D.room self.now.setting) result }
        ensures first { result.first ≡ first }
    {
        let message = self.setting.message_at(first);
        Prospect {
            first,
            after: self.order.column(place_of(Event::Out(message))),
            held: self.setting.hold_row(message),
        }
    }

    // How many messages must wait at once for this one, sent after the message in prospect, to be received before it:
    // these two, and each that is sent between them and held by the message in prospect.
    fn crowd(&self, prospect: &Prospect, message: MessageId) -> u32
        requires { message.0 < message_limit }
        ensures { result ≡ crowd_in self.now.order.now prospect.now message.0 }
    {
        let row = self.order.row(place_of(Event::Out(message)));
        prospect.after.meet_count(row, &prospect.held) + 2
    }

    fn can_turn(&self, prospect: &Prospect, a: Event, b: Event) -> bool
        requires first { message_of (happening a) < message_limit }
        requires second { message_of (happening b) < message_limit }
        ensures { result ≡ turns_in self.now.order.now prospect.now (D.room self.now.setting.delivery.now) (happening a) (happening b) }
    {
        let order = self.order;
        if order.holds(place_of(a), place_of(b)) {
            return false;
        }
        let (first, second) = (a.message(), b.message());
        !order.holds(place_of(Event::Out(first)), place_of(Event::Out(second)))
            || self.crowd(prospect, second) <= self.setting.delivery.capacity() as u32
    }

    // Whether this event and the one in prospect are a reversible pair.
    pub(crate) fn is_race(&self, prospect: &Prospect, second: EventId) -> bool
        requires foresees { Foresees (content self.now.setting.chart.now) (scene D.rule D.room self.now.setting) prospect.now }
        requires inside { second.0 < length (content self.now.setting.chart.now).events }
        ensures { result ≡ is_race D.rule D.room self.now.setting prospect.now.first.0 second.0 }
    {
        let setting = &self.setting;
        setting.is_pair(prospect.first, second)
            && self.can_turn(
                prospect,
                setting.event_at(prospect.first),
                setting.event_at(second),
            )
    }
}
