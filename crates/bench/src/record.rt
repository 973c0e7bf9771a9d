// The record of a bench, and what it says against an event.
ghost use Rattle.std.specs.Prelude.{◌≡◌, ◌<◌, ◌≤◌, true, false, not, ◌&&◌, ◌∷◌, [], ◌++◌, List, length, IfOk, OnOk, Option, MatchOption, vec_len, vec_capacity, ◌==◌, nat_lt};
ghost use Rattle.chart.specs.Charted.{content};
ghost use Rattle.chart.specs.Content.{Content, sent};
ghost use Rattle.delivery.specs.declared.parcel.Parcel.{Parcel};
ghost use Rattle.order.specs.Pass.{listed};
ghost use Rattle.order.specs.Scenes.{event_at, instance_of};
ghost use Rattle.bench.specs.Firings.{Lacks, FirstLacking};
ghost use Rattle.bench.specs.Layouts.{placed, copied, OnCopy};
ghost use Rattle.bench.specs.Records.{fired_in, once, within, happenings};
ghost use Rattle.bench.specs.States.{Stage, Play};
ghost use Rattle.bench.specs.Steps.{Against};

use crate::layout::{Layout, Placed};
use crate::refusal::Obstacle;
use chart::charting::Chart;
use chart::numbers::{EventId, InstanceId, MessageId};
use chart::pieces::Side;
use std::alloc::{AllocError, Global};

// The events that were fired, in order, over a copy of their chart. Each can be fired once, so all memory is reserved at first.
#[derive(Drop)]
pub(crate) struct Record {
    pub layout: Layout,
    pub fired: Vec<EventId>,
    ghost room: { vec_len layout.places ≤ vec_capacity fired },
    ghost inside: { within (vec_len layout.places) fired.items ≡ true },
    ghost apart: { once fired.items ≡ true },
}

impl Record {
    pub(crate) fn over(heap: Global, chart: &Chart) -> Result<Record, AllocError>
        ensures copies { IfOk result (λ r. r.layout.places.items ≡ copied (content chart.now)) }
        ensures empty { IfOk result (λ r. r.fired.items ≡ []) }
    {
        let layout = Layout::copy(heap, chart)?;
        let fired = Vec::with_capacity(heap, layout.places.len())?;
        Ok(Record { layout, fired })
    }

    // Whether the event stands at this instance and was not fired.
    fn is_missing(&self, event: EventId, instance: InstanceId) -> bool
        ensures { OnCopy self.now.layout (λ c. result ≡ ((nat_lt event.0 (length c.events) && instance_of c (event_at c event.0) == instance.0) && not (fired_in event.0 self.now.fired.items))) }
    {
        self.layout.stands_at(event, instance) && !self.fired.contains(&event)
    }

    // The first event above the given one at its instance that was not fired.
    fn first_missing(&self, event: EventId, instance: InstanceId) -> Option<EventId>
        requires { event.0 ≤ vec_len self.now.layout.places }
        ensures { OnCopy self.now.layout (λ c. instance.0 ≡ instance_of c (event_at c event.0) → MatchOption result ((x : EventId) → Lacks c self.now.fired.items event x → ⊥) (λ x. FirstLacking c self.now.fired.items event x)) }
    {
        (0..event.0)
            .find(|above| self.is_missing(EventId(*above), instance))
            .map(EventId)
    }

    // Whether the out event of a message was fired.
    fn was_sent(&self, message: MessageId) -> bool
        ensures { OnCopy self.now.layout (λ c. result ≡ listed (sent message.0) (happenings c self.now.fired.items)) }
    {
        self.fired
            .iter()
            .any(|event| self.layout.sends(*event, message))
    }

    // Whether the record lets an event follow it.
    pub(crate) fn admits(&self, event: EventId, place: Placed) -> Result<(), Obstacle>
        requires { event.0 < vec_len self.now.layout.places }
        ensures fresh { OnOk result (fired_in event.0 self.now.fired.items ≡ false) }
        ensures says { (g : Stage) (w : List Parcel) (play : Option Play) → self.now.layout.places.items ≡ copied g.chart → place ≡ placed g.chart (event_at g.chart event.0) → Against g (record { fired = self.now.fired.items; waiting = w; play = play }) event (event_at g.chart event.0) result }
    {
        if self.fired.contains(&event) {
            return Err(Obstacle::InRecord);
        }
        match place.line.side {
            Side::Out => self
                .first_missing(event, place.line.instance)
                .map_or(Ok(()), |first| Err(Obstacle::AboveMissing { first })),
            Side::In if self.was_sent(place.line.message) => Ok(()),
            Side::In => Err(Obstacle::OutMissing),
        }
    }

    pub(crate) fn push(&mut self, event: EventId)
        requires inside { event.0 < vec_len self.old.layout.places }
        requires fresh { fired_in event.0 self.old.fired.items ≡ false }
        ensures layout { self.new.layout ≡ self.old.layout }
        ensures fired { self.new.fired.items ≡ self.old.fired.items ++ event ∷ [] }
    {
        self.fired.push_reserved(event);
    }
}
