// One play from its beginning to its close.
ghost use Rattle.std.specs.Prelude.{◌≡◌, None};
ghost use Rattle.bench.specs.Benches.{Keeps, OnSound};

use bench::refusal::Refusal;
use bench::stand::Bench;
use bench::stand::playing::Slip;
use delivery::meaning::Delivery;
use std::fmt;

// Why a play did not come to its end.
#[derive(Clone, Copy)]
pub(crate) enum Stop {
    NotBegun(Refusal),
    Halted { fired: usize, refusal: Refusal },
    NotClosed(Refusal),
}

impl fmt::Display for Stop {
    fn fmt<W: fmt::Write>(&self, f: &mut fmt::Formatter<W>) -> fmt::Result {
        match self {
            Stop::NotBegun(refusal) => write!(f, "not begun, refusal {}", refusal.number()),
            Stop::Halted { fired, refusal } => {
                let number = refusal.number();
                write!(f, "halted by refusal {number}, {fired} events fired")
            }
            Stop::NotClosed(refusal) => write!(f, "not closed, refusal {}", refusal.number()),
        }
    }
}

fn advance_to_the_end<D: Delivery>(bench: &mut Bench<D>, slip: &Slip) -> Result<(), Refusal>
    ensures { Keeps D.Delivery bench.old bench.new }
{
    for _ in 0..bench.event_count() {
        bench.advance(slip)?;
    }
    Ok(())
}

// Plays a schedule as far as it goes, and tells how many events were fired if it is played to its end. Whatever stops it, the
// slip is handed to close, so what stopped it is passed on only after that.
pub(crate) fn played<D: Delivery>(bench: &mut Bench<D>, schedule: &[u8]) -> Result<usize, Stop>
    ensures sound { Keeps D.Delivery bench.old bench.new }
    ensures closed { OnSound D.Delivery bench.old bench.new (λ g s t. s.play ≡ None → t.play ≡ None) }
{
    let slip = bench.begin(schedule).map_err(Stop::NotBegun)?;
    let advanced = advance_to_the_end(bench, &slip);
    let fired = bench.close(slip).map_err(Stop::NotClosed)?;
    advanced.map_err(|refusal| Stop::Halted { fired, refusal })?;
    Ok(fired)
}
