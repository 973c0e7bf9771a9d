// What is to be known of a reversible pair to have its second event first.
ghost use Rattle.std.specs.Prelude.{◌≡◌, ◌<◌, length};
ghost use Rattle.chart.specs.Charted.{content};
ghost use Rattle.chart.specs.Content.{message_of};
ghost use Rattle.order.specs.Scenes.{scene_of, event_at, PairAt};
ghost use Rattle.analysis.specs.Judging.{Foresees};
ghost use Rattle.analysis.specs.Outlooks.{Outlooks, Judges};
ghost use Rattle.analysis.specs.Settings.{scene};

use crate::judging::Prospect;
use crate::refusals::JudgeRefusal;
use crate::setting::{Setting, place_of};
use crate::survey::Survey;
use chart::charting::Chart;
use chart::numbers::{EventId, MessageId};
use chart::pieces::Event;
use delivery::meaning::Delivery;
use matrix::matrices::OrderMatrix;
use matrix::sets::EventSet;

// Of the messages of a reversible pair: the events before the out event of the second, those after the out event of the
// first, and the out events of the messages that the first holds.
#[derive(Clone, Copy)]
pub struct Outlook {
    pub first: MessageId,
    pub second: MessageId,
    pub before: EventSet,
    pub after: EventSet,
    pub held: EventSet,
}

impl<'a, D: Delivery> Survey<'a, D> {
    fn outlook_of(&self, prospect: &Prospect, second: EventId) -> Outlook
        requires foresees { Foresees (content self.now.setting.chart.now) (scene D.rule D.room self.now.setting) prospect.now }
        requires inside { second.0 < length (content self.now.setting.chart.now).events }
        ensures { Outlooks (scene D.rule D.room self.now.setting) (message_of (event_at (content self.now.setting.chart.now) prospect.now.first.0)) (message_of (event_at (content self.now.setting.chart.now) second.0)) result }
    {
        let second = self.setting.message_at(second);
        Outlook {
            first: self.setting.message_at(prospect.first),
            second,
            before: *self.order.row(place_of(Event::Out(second))),
            after: prospect.after,
            held: prospect.held,
        }
    }
}

impl<'a, D: Delivery> Setting<'a, D> {
    // Apart from `judge`, so that two events that are no pair don't pay for the matrix: locals are zeroed at the entry.
    fn judge_pair(&self, first: EventId, second: EventId) -> Result<Outlook, JudgeRefusal>
        requires { PairAt (content self.now.chart.now) first.0 second.0 }
        ensures { Judges (content self.now.chart.now) (scene D.rule D.room self.now) first.0 second.0 result }
    {
        let mut order = OrderMatrix::blank();
        let survey = Survey::of(*self, &mut order);
        let prospect = survey.prospect_of(first);
        if !survey.is_race(&prospect, second) {
            return Err(JudgeRefusal::Fixed);
        }
        Ok(survey.outlook_of(&prospect, second))
    }
}

// Any two numbers may be asked about.
// Chart and delivery apart, as `fill` does and for its reason.
pub fn judge<D: Delivery>(
    chart: &Chart,
    delivery: &D,
    first: EventId,
    second: EventId,
) -> Result<Outlook, JudgeRefusal>
    ensures { Judges (content chart.now) (scene_of (content chart.now) (D.rule delivery.now) (D.room delivery.now)) first.0 second.0 result }
{
    let setting = Setting { chart, delivery };
    let events = chart.events().len();
    if first.0 as usize >= events || second.0 as usize >= events {
        return Err(JudgeRefusal::NotPair);
    }
    if !setting.is_pair(first, second) {
        return Err(JudgeRefusal::NotPair);
    }
    setting.judge_pair(first, second)
}
