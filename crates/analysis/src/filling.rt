// The one pass that fills the matrix with the enforced order: message by message, out(0), in(0), out(1), in(1), and so on.
// Beside the matrix there is never more than one row.
ghost use Rattle.std.specs.Prelude.{◌≡◌, ◌+◌, ◌*◌, ◌<◌, ◌||◌, length};
ghost use Rattle.chart.specs.Charted.{content};
ghost use Rattle.chart.specs.Content.{Happening, message_of};
ghost use Rattle.chart.specs.Shown.{happening};
ghost use Rattle.matrix.specs.Places.{place_of, message_limit};
ghost use Rattle.matrix.specs.Models.{has};
ghost use Rattle.order.specs.Scenes.{scene_of};
ghost use Rattle.analysis.specs.Filling.{reaches, Within, Covers, CoversAll, Consists, BeforeOut, is_holder, BeforeIn};
ghost use Rattle.analysis.specs.Judging.{Filled};
ghost use Rattle.analysis.specs.Settings.{scene};

use crate::setting::{Setting, place_of};
use chart::charting::Chart;
use chart::numbers::MessageId;
use chart::pieces::Event;
use delivery::meaning::Delivery;
use matrix::matrices::OrderMatrix;
use matrix::sets::EventSet;

// The event joins the row, with all that the matrix has before it.
fn join(row: &mut EventSet, order: &OrderMatrix, event: Event)
    requires { message_of (happening event) < message_limit }
    ensures { (e : Happening) → has row.new (place_of e) ≡ (has row.old (place_of e) || reaches order.now e (happening event)) }
{
    let place = place_of(event);
    row.union_with(order.row(place));
    row.insert(place);
}

impl<'a, D: Delivery> Setting<'a, D> {
    // What comes before an out event: each event above it at its instance, and all that is before that.
    fn row_of_out(&self, order: &OrderMatrix, message: MessageId) -> EventSet
        requires { message.0 < length (content self.now.chart.now).messages }
        ensures { Consists result (BeforeOut (scene D.rule D.room self.now) order.now message.0) }
    {
        let out = Event::Out(message);
        let sender = self.instance_of(out);
        let mut row = EventSet::empty();
        // It ends by a `return`: a `for` over a `take_while` up to the out event was tried, and the check does not take it here.
        for event in self.chart.events() {
            if *event == out {
                return row;
            }
            if self.instance_of(*event) == sender {
                join(&mut row, order, *event);
            }
        }
        row
    }

    // Whether the in event of this message waits for that of a message that holds it and is sent before it.
    fn is_holder(&self, order: &OrderMatrix, holder: MessageId, message: MessageId) -> bool
        requires holder_inside { holder.0 < length (content self.now.chart.now).messages }
        requires message_inside { message.0 < length (content self.now.chart.now).messages }
        ensures { result ≡ is_holder (scene D.rule D.room self.now) order.now message.0 holder.0 }
    {
        order.holds(place_of(Event::Out(holder)), place_of(Event::Out(message)))
            && self
                .delivery
                .holds(self.tag_at(holder), self.tag_at(message))
    }

    // What comes before an in event: its out event, the in events of those that hold it, and all that is before these.
    fn row_of_in(&self, order: &OrderMatrix, message: MessageId) -> EventSet
        requires { message.0 < length (content self.now.chart.now).messages }
        ensures { Consists result (BeforeIn (scene D.rule D.room self.now) order.now message.0 message.0) }
    {
        let mut row = EventSet::empty();
        join(&mut row, order, Event::Out(message));
        // Over numbers: a message's number is its place, and `is_holder` and `join` take messages by number.
        for m in 0..message.0 {
            if self.is_holder(order, MessageId(m), message) {
                join(&mut row, order, Event::In(MessageId(m)));
            }
        }
        row
    }

    // The two rows of a message, once those of the messages before it are filled.
    fn fill_rows(&self, order: &mut OrderMatrix, message: MessageId)
        requires inside { message.0 < length (content self.now.chart.now).messages }
        requires within { Within (scene D.rule D.room self.now) order.old }
        requires covers { Covers (scene D.rule D.room self.now) order.old (2 * message.0) }
        ensures within { Within (scene D.rule D.room self.now) order.new }
        ensures covers { Covers (scene D.rule D.room self.now) order.new (2 * (message.0 + 1)) }
    {
        let row = self.row_of_out(order, message);
        order.put_row(place_of(Event::Out(message)), row);
        let row = self.row_of_in(order, message);
        order.put_row(place_of(Event::In(message)), row);
    }
}

// Clears the matrix and fills it. It never holds a pair outside the order, and in the end every pair of it.
// It takes chart and delivery apart, and no `Setting`: its signature is asked for, and so with all public calls of this crate.
pub fn fill<D: Delivery>(order: &mut OrderMatrix, chart: &Chart, delivery: &D)
    ensures within { Within (scene_of (content chart.now) (D.rule delivery.now) (D.room delivery.now)) order.new }
    ensures covers { CoversAll (scene_of (content chart.now) (D.rule delivery.now) (D.room delivery.now)) order.new }
    ensures filled { Filled (scene_of (content chart.now) (D.rule delivery.now) (D.room delivery.now)) order.new }
{
    let setting = Setting { chart, delivery };
    order.clear();
    let messages = chart.messages();
    // Over numbers: a message's number is its place.
    for m in 0..messages.len() {
        setting.fill_rows(order, MessageId(m as u16));
    }
}
