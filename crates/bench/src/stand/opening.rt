// How a bench is made.
ghost use Rattle.std.specs.Prelude.{◌≡◌, ◌≤◌, [], None, IfOk, vec_len, vec_capacity};
ghost use Rattle.chart.specs.Charted.{content};
ghost use Rattle.bench.specs.Benches.{Opened};
ghost use Rattle.bench.specs.Layouts.{copied};

use super::Bench;
use crate::record::Record;
use crate::schedule::Script;
use chart::charting::Chart;
use delivery::meaning::Delivery;
use std::alloc::{AllocError, AllocFailed, Global};

impl<D: Delivery> Bench<D> {
    // Only here can memory be lacking; the delivery then comes back untouched.
    pub fn open(heap: Global, chart: &Chart, delivery: D) -> Result<Bench<D>, AllocFailed<D>>
        ensures { Opened D.Delivery (content chart.now) delivery result }
    {
        // not by `map_err`, whose closure would take the delivery along: it is needed where there is memory
        let Ok((log, play)) = reserved(heap, chart) else {
            return Err(AllocFailed { value: delivery });
        };
        let mut emptied = delivery;
        emptied.empty();
        Ok(Bench {
            delivery: emptied,
            log,
            play,
        })
    }
}

// All that a bench has of its own. Heap and chart go together only through these few calls below `open`, once, so
// that a struct of the two would be taken apart as soon as it is made.
fn reserved(heap: Global, chart: &Chart) -> Result<(Record, Script), AllocError>
    ensures copies { IfOk result (λ p. p.0.layout.places.items ≡ copied (content chart.now)) }
    ensures empty { IfOk result (λ p. p.0.fired.items ≡ []) }
    ensures room { IfOk result (λ p. vec_len p.0.layout.places ≤ vec_capacity p.1.entries) }
    ensures closed { IfOk result (λ p. p.1.done ≡ None) }
{
    let log = Record::over(heap, chart)?;
    let play = Script::with_room(heap, log.layout.places.len())?;
    Ok((log, play))
}
