// The one walk over the reversible pairs, which all ways to tell them go by.
ghost use Rattle.std.specs.Prelude.{◌≡◌, length};
ghost use Rattle.std.specs.Iterator.{item_count};
ghost use Rattle.chart.specs.Charted.{content};
ghost use Rattle.analysis.specs.Settings.{is_race, races_in};
ghost use Rattle.analysis.specs.Walking.{FirstFrom, Sweeps, Begins, Course, Gives};

use super::judging::Prospect;
use super::races::Race;
use super::survey::Survey;
use chart::charting::asking::Line;
use chart::numbers::EventId;
use delivery::meaning::Delivery;
use std::marker::Model;

// An event as the first of pairs: it is judged against the events that are drawn below it, one after the other.
#[derive(Clone, Copy)]
pub(crate) struct Sweep {
    prospect: Prospect,
    line: Line,
    // the next event to judge it against
    next: u16,
}

// A place among the reversible pairs, and how many were given before it.
#[derive(Drop)]
pub(crate) struct Walk<'a, D: Delivery> {
    survey: &'a Survey<'a, D>,
    sweep: Option<Sweep>,
    given: usize,
}

// Seen as the pairs that are left, and how many were given.
impl<'a, D: Delivery> Model for Walk<'a, D> {
    ghost use Rattle.std.specs.Prelude.{drop};
    ghost use Rattle.chart.specs.Charted.{content};
    ghost use Rattle.analysis.specs.Settings.{races_in};
    ghost use Rattle.analysis.specs.Walking.{Course, Walks};

    ghost Value = { Course };

    ghost view = { λ w. record { left = drop w.given (races_in D.rule D.room w.survey.now.setting); given = w.given } };

    ghost invariant = { λ w. Walks (content w.survey.now.setting.chart.now) (D.rule w.survey.now.setting.delivery.now) (D.room w.survey.now.setting.delivery.now) w.sweep w.given };
}

impl<'a, D: Delivery> Survey<'a, D> {
    // None if the chart has no such event.
    fn sweep_at(&self, first: EventId) -> Option<Sweep>
        ensures { Begins (content self.now.setting.chart.now) (D.rule self.now.setting.delivery.now) (D.room self.now.setting.delivery.now) first.0 result }
    {
        let line = self.setting.chart.line(first)?;
        let prospect = self.prospect_of(first);
        Some(Sweep {
            prospect,
            line,
            next: first.0 + 1,
        })
    }

    // The next event that makes a reversible pair with the first one.
    fn next_second(&self, sweep: &Sweep) -> Option<EventId>
        requires { Sweeps (content self.now.setting.chart.now) (D.rule self.now.setting.delivery.now) (D.room self.now.setting.delivery.now) sweep.now }
        ensures { FirstFrom (is_race D.rule D.room self.now.setting sweep.now.prospect.first.0) sweep.now.next (length (content self.now.setting.chart.now).events) result }
    {
        let events = self.setting.chart.events().len() as u16;
        let is_second = |number: &u16| self.is_race(&sweep.prospect, EventId(*number));
        let number = (sweep.next..events).find(is_second)?;
        Some(EventId(number))
    }

    // The reversible pairs, rising by the first event and then by the second.
    pub(crate) fn races(&self) -> Walk<'_, D>
        ensures { result ≡ record { left = races_in D.rule D.room self.now.setting; given = 0 } }
    {
        Walk {
            survey: self,
            sweep: self.sweep_at(EventId(0)),
            given: 0,
        }
    }
}

impl<'a, D: Delivery> Walk<'a, D> {
    pub(crate) fn given(&self) -> usize
        ensures { result ≡ self.now.given }
    {
        self.given
    }
}

impl<'a, D: Delivery> Iterator for Walk<'a, D> {
    type Item = Race;

    ghost next_gives = { Gives };

    ghost remaining = { item_count (λ w. w.left) };

    fn next(&mut self) -> Option<Race> {
        while let Some(sweep) = self.sweep {
            if let Some(second) = self.survey.next_second(&sweep) {
                self.sweep = Some(Sweep {
                    next: second.0 + 1,
                    ..sweep
                });
                self.given += 1;
                return Some(Race {
                    first: sweep.prospect.first,
                    second,
                    instance: sweep.line.instance,
                    side: sweep.line.side,
                });
            }
            self.sweep = self.survey.sweep_at(EventId(sweep.prospect.first.0 + 1));
        }
        None
    }
}
