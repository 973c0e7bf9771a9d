// Making calls on a bench.
ghost use Rattle.std.specs.Prelude.{◌≡◌, ◌+◌, ◌<◌, ◌≤◌, [], length, vec_len, vec_capacity};
ghost use Rattle.promise.specs.Clients.{Onward, Begins, Makes, Performs};

use crate::calls::{Answer, Call};
use bench::refusal::Refusal;
use bench::stand::Bench;
use bench::stand::playing::Slip;
use delivery::meaning::Delivery;

// A client of a bench, with a pool of slips, which may be of other benches too.
pub(crate) struct Client<D> {
    pub bench: Bench<D>,
    pub slips: Vec<Slip>,
}

// `Onward` is said by each method: it tells what a client is after beside what it was before, so no type can hold it.
impl<D: Delivery> Client<D> {
    // The slip of an accepted begin goes to the end of the pool.
    fn begin(&mut self, schedule: &[u8]) -> Result<(), Refusal>
        requires { vec_len self.old.slips < vec_capacity self.old.slips }
        ensures onward { Onward D.Delivery self.old self.new }
        ensures begins { Begins D.Delivery self.old schedule.now result self.new }
    {
        let slip = self.bench.begin(schedule)?;
        self.slips.push_reserved(slip);
        Ok(())
    }

    fn advance(&mut self, place: usize) -> Answer
        ensures onward { Onward D.Delivery self.old self.new }
        ensures makes { Makes D.Delivery self.old (Call.Advance place) result self.new }
    {
        // a match: were the bench lent to the closure of a `map_or`, nothing would be known of it where there is no slip
        match self.slips.get(place) {
            Some(slip) => Answer::Advanced(self.bench.advance(slip)),
            None => Answer::NoSlip,
        }
    }

    fn close(&mut self, place: usize) -> Answer
        ensures onward { Onward D.Delivery self.old self.new }
        ensures makes { Makes D.Delivery self.old (Call.Close place) result self.new }
    {
        if place >= self.slips.len() {
            return Answer::NoSlip;
        }
        let slip = self.slips.remove(place);
        Answer::Closed(self.bench.close(slip))
    }

    fn make(&mut self, call: Call<'_>) -> Answer
        requires { vec_len self.old.slips < vec_capacity self.old.slips }
        ensures onward { Onward D.Delivery self.old self.new }
        ensures makes { Makes D.Delivery self.old call.entry result self.new }
    {
        match call {
            Call::Fire(event) => Answer::Fired(self.bench.fire(event)),
            Call::Clear => Answer::Cleared(self.bench.clear()),
            Call::Begin(schedule) => Answer::Begun(self.begin(schedule)),
            Call::Advance(place) => self.advance(place),
            Call::Close(place) => self.close(place),
        }
    }

    // The calls one after the other; their answers join those given.
    pub(crate) fn perform(&mut self, calls: &[Call<'_>], answers: &mut Vec<Answer>)
        requires pool { vec_len self.old.slips + length calls.now ≤ vec_capacity self.old.slips }
        requires places { vec_len answers.old + length calls.now ≤ vec_capacity answers.old }
        requires none { answers.old.items ≡ [] }
        ensures onward { Onward D.Delivery self.old self.new }
        ensures performs { Performs D.Delivery self.old calls.now answers.new.items self.new }
    {
        for call in calls {
            let answer = self.make(*call);
            answers.push_reserved(answer);
        }
    }
}
