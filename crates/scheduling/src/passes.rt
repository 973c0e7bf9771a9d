// A schedule goes over the messages four times.
ghost use Rattle.std.specs.Prelude.{◌≡◌, ◌+◌, ◌<◌, ◌≤◌, ◌&&◌, ◌||◌, length};
ghost use Rattle.chart.specs.Charted.{content};
ghost use Rattle.chart.specs.Content.{message_of};
ghost use Rattle.chart.specs.Shown.{happening};
ghost use Rattle.schedules.specs.Plan.{pass};
ghost use Rattle.scheduling.specs.Firings.{firing, firings};
ghost use Rattle.scheduling.specs.Passes.{has_out, leads_in, follows_in, stuck_in, sends, receives, turn_of, listed};
ghost use Rattle.analysis.specs.Writing.{Puts};

use super::firings::number_of;
use analysis::outlook::Outlook;
use analysis::writing::Writer;
use chart::charting::Chart;
use chart::numbers::MessageId;
use chart::pieces::Event;
use matrix::{EventSet, Place};

// Four stages in a fixed order, each with the messages that it sends and those that it receives. An enum and not a pair of
// closures for each: what a stage does is then a function of the stage, which the contracts name.
#[derive(Clone, Copy)]
pub(crate) enum Stage {
    // What the second message needs, and does not wait for the first: each sent, and received at once.
    Early,
    // The rest of what it needs: each sent, and received at once unless the first message holds it.
    Late,
    // What that left waiting is received.
    Kept,
    // All others: each sent, and received at once.
    Other,
}

fn has_out(set: &EventSet, message: MessageId) -> bool
    ensures { result ≡ has_out set.now message.0 }
{
    Place::of(Event::Out(message)).is_some_and(|place| set.contains(place))
}

// The events of a chart in an order of firing, told by the outlook on the pair that is to come the other way round.
#[derive(Clone, Copy)]
pub(crate) struct Plan<'a> {
    pub(crate) chart: &'a Chart,
    pub(crate) outlook: &'a Outlook,
}

// Below, a message leads, follows or is stuck if it is this one or its out event is in that set: each is a notion of its own with
// its own definition in the specs, and one more function for the `or` would save no line.
// What a stage does is inlined into the four calls of `put_all`, each of which then has a stage that is known: without this a
// schedule takes a sixth longer.
impl<'a> Plan<'a> {
    fn leads(&self, message: MessageId) -> bool
        ensures { result ≡ leads_in self.now.outlook.now message.0 }
    {
        message == self.outlook.second || has_out(&self.outlook.before, message)
    }

    fn follows(&self, message: MessageId) -> bool
        ensures { result ≡ follows_in self.now.outlook.now message.0 }
    {
        let Outlook {
            first,
            before,
            after,
            ..
        } = self.outlook;
        has_out(before, *first) && (message == *first || has_out(after, message))
    }

    fn is_stuck(&self, message: MessageId) -> bool
        ensures { result ≡ stuck_in self.now.outlook.now message.0 }
    {
        message == self.outlook.first || has_out(&self.outlook.held, message)
    }

    #[inline(always)]
    fn sends(&self, stage: Stage, message: MessageId) -> bool
        ensures { result ≡ sends self.now.outlook.now stage message.0 }
    {
        match stage {
            Stage::Early => self.leads(message) && !self.follows(message),
            Stage::Late => self.leads(message) && self.follows(message),
            Stage::Kept => false,
            Stage::Other => !self.leads(message),
        }
    }

    #[inline(always)]
    fn receives(&self, stage: Stage, message: MessageId) -> bool
        ensures { result ≡ receives self.now.outlook.now stage message.0 }
    {
        match stage {
            Stage::Late => self.sends(Stage::Late, message) && !self.is_stuck(message),
            Stage::Kept => self.sends(Stage::Late, message) && self.is_stuck(message),
            Stage::Early | Stage::Other => self.sends(stage, message),
        }
    }

    // The record of one event.
    fn put_firing(&self, writer: &mut Writer, event: Event)
        requires inside { message_of (happening event) < length (content self.now.chart.now).messages }
        requires room { writer.old.len + 2 ≤ length writer.old.buffer.now }
        ensures { Puts writer.old (firing (content self.now.chart.now) (happening event)) writer.new }
    {
        let number = number_of(self.chart, event);
        writer
            .put(&[number.0 as u8, event.message().0 as u8])
            .unwrap();
    }

    // What a stage does with one message.
    #[inline(always)]
    fn put_turn(&self, writer: &mut Writer, stage: Stage, message: MessageId)
        requires inside { message.0 < length (content self.now.chart.now).messages }
        requires room { writer.old.len + length (firings (content self.now.chart.now) (turn_of self.now.outlook.now stage message.0)) ≤ length writer.old.buffer.now }
        ensures { Puts writer.old (firings (content self.now.chart.now) (turn_of self.now.outlook.now stage message.0)) writer.new }
    {
        if self.sends(stage, message) {
            self.put_firing(writer, Event::Out(message));
        }
        if self.receives(stage, message) {
            self.put_firing(writer, Event::In(message));
        }
    }

    #[inline(always)]
    fn put_stage(&self, writer: &mut Writer, stage: Stage)
        requires { writer.old.len + length (firings (content self.now.chart.now) (pass (sends self.now.outlook.now stage) (receives self.now.outlook.now stage) (length (content self.now.chart.now).messages))) ≤ length writer.old.buffer.now }
        ensures { Puts writer.old (firings (content self.now.chart.now) (pass (sends self.now.outlook.now stage) (receives self.now.outlook.now stage) (length (content self.now.chart.now).messages))) writer.new }
    {
        // Over numbers: a message's number is its place.
        for h in 0..self.chart.messages().len() {
            self.put_turn(writer, stage, MessageId(h as u16));
        }
    }

    pub(crate) fn put_all(&self, writer: &mut Writer)
        requires { writer.old.len + length (firings (content self.now.chart.now) (listed self.now.outlook.now (length (content self.now.chart.now).messages))) ≤ length writer.old.buffer.now }
        ensures { Puts writer.old (firings (content self.now.chart.now) (listed self.now.outlook.now (length (content self.now.chart.now).messages))) writer.new }
    {
        self.put_stage(writer, Stage::Early);
        self.put_stage(writer, Stage::Late);
        self.put_stage(writer, Stage::Kept);
        self.put_stage(writer, Stage::Other);
    }
}
