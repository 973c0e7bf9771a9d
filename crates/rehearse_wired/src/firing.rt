// Events fired on a bench, each with its answer.
use super::misuse::Failure;
use super::naming::Named;
use super::piles::Rehearsal;
use bench::refusal::{Firing, Obstacle, Refusal};
use bench::stand::Bench;
use chart::numbers::EventId;
use delivery::meaning::Delivery;
use std::{fmt, io};

// What stands in the way of an event.
impl fmt::Display for Named<'_, Obstacle> {
    fn fmt<W: fmt::Write>(&self, f: &mut fmt::Formatter<W>) -> fmt::Result {
        match self.1 {
            Obstacle::InRecord => write!(f, "it is in the record"),
            Obstacle::AboveMissing { first } => write!(
                f,
                "event {} of its instance is missing",
                first.0
            ),
            Obstacle::OutMissing => write!(f, "its out event is missing"),
            Obstacle::Full { layer } => write!(f, "the wiring is full at layer {layer}"),
            Obstacle::Held { holder, layer } => {
                let name = Named(self.0, holder);
                write!(f, "message {}, {name}, holds it at layer {layer}", holder.0)
            }
        }
    }
}

// The event that was to be fired, with its instance and message.
impl fmt::Display for Named<'_, Firing> {
    fn fmt<W: fmt::Write>(&self, f: &mut fmt::Formatter<W>) -> fmt::Result {
        let event = self.1.event.0;
        let instance = Named(self.0, self.1.instance);
        let message = Named(self.0, self.1.message);
        write!(f, "event {event} at {instance}, message {message}")
    }
}

// Why a call on a bench comes back.
impl fmt::Display for Named<'_, Refusal> {
    fn fmt<W: fmt::Write>(&self, f: &mut fmt::Formatter<W>) -> fmt::Result {
        match self.1 {
            Refusal::PlayOpen => write!(f, "a play is open"),
            Refusal::NotInChart { event } => write!(f, "event {} is not in the chart", event.0),
            Refusal::Unfired { firing, obstacle } => {
                let event = Named(self.0, firing);
                let why = Named(self.0, obstacle);
                write!(f, "{event}: {why}")
            }
            Refusal::RecordNotEmpty => write!(f, "the record is not empty"),
            Refusal::BadSchedule { place } => write!(f, "record {place} of the schedule is bad"),
            Refusal::NoPlay => write!(f, "no play is open"),
            Refusal::NoEventLeft => write!(f, "the play has no event left"),
        }
    }
}

impl Rehearsal<'_> {
    fn print_firing<D: Delivery>(&self, bench: &mut Bench<D>, event: EventId) -> io::Result<()> {
        let answer = bench.fire(event);
        let number = event.0;
        // one call for each line, so that it is written at once
        match answer {
            Ok(()) => {
                println!(self.rt;
                    "fire {number}: accepted, {} waiting",
                    bench.waiting_count()
                )
            }
            Err(refusal) => {
                let why = Named(self.chart, refusal);
                println!(self.rt; "fire {number}: refused {}, {why}", refusal.number())
            }
        }
    }

    fn print_record<D: Delivery>(&self, bench: &Bench<D>) -> io::Result<()> {
        print!(self.rt; "record:")?;
        for event in bench.fired() {
            print!(self.rt; " {}", event.0)?;
        }
        println!(self.rt)
    }

    // Opens a bench over the wiring and fires the events on it; nothing if there are none.
    pub(crate) fn fire_all<D: Delivery + Drop>(&self, delivery: D) -> Result<(), Failure> {
        if self.events.is_empty() {
            return Ok(());
        }
        let opened = Bench::open(self.rt.alloc(), self.chart, delivery);
        let mut bench = opened.map_err(|_| Failure::OutOfMemory)?;
        println!(self.rt)?;
        for event in self.events {
            self.print_firing(&mut bench, *event)?;
        }
        self.print_record(&bench)?;
        Ok(())
    }
}
