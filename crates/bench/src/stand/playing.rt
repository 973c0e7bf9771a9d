// Plays: a schedule is begun, advanced event by event, and closed.
ghost use Rattle.bench.specs.Benches.{Remains, OnSound};
ghost use Rattle.bench.specs.Plays.{Begun, Advanced, Closed};

use super::Bench;
use crate::refusal::Refusal;
use crate::schedule::records_of;
use delivery::meaning::Delivery;

// A slip says that a play was begun and is to be closed. Only begin makes one and only close spends one: it cannot be
// copied or let go. It is no key: any slip serves at any bench.
pub struct Slip {
    seal: (),
}

impl<D: Delivery> Bench<D> {
    pub fn begin(&mut self, schedule: &[u8]) -> Result<Slip, Refusal>
        ensures remains { Remains D.Delivery self.old self.new }
        ensures begins { OnSound D.Delivery self.old self.new (λ g s t. Begun g s schedule.now result t) }
    {
        self.play.must_be_closed()?;
        if !self.log.fired.is_empty() {
            return Err(Refusal::RecordNotEmpty);
        }
        let records = records_of(schedule, self.log.layout.places.len()).ok_or(
            Refusal::BadSchedule { place: 0 },
        )?;
        if let Some(place) = self.play.load(&self.log.layout, records) {
            return Err(Refusal::BadSchedule { place });
        }
        self.play.done = Some(0);
        Ok(Slip { seal: () })
    }

    // Fires the next event of the play, which stays where it is if the event is refused.
    pub fn advance(&mut self, _slip: &Slip) -> Result<(), Refusal>
        ensures remains { Remains D.Delivery self.old self.new }
        ensures advances { OnSound D.Delivery self.old self.new (λ g s t. Advanced g s result t) }
    {
        let done = self.play.done.ok_or(Refusal::NoPlay)?;
        let entry = self.play.entry(done).ok_or(Refusal::NoEventLeft)?;
        self.fire_next(entry.event)?;
        self.play.done = Some(done + 1);
        Ok(())
    }

    // Ends the play and tells how many of its events were fired. The slip is spent even if no play is open.
    pub fn close(&mut self, slip: Slip) -> Result<usize, Refusal>
        ensures remains { Remains D.Delivery self.old self.new }
        ensures closes { OnSound D.Delivery self.old self.new (λ g s t. Closed s result t) }
    {
        let Slip { seal: () } = slip;
        self.play.done.take().ok_or(Refusal::NoPlay)
    }
}
