// The whole promise, on one call.
ghost use Rattle.std.specs.Prelude.{length};
ghost use Rattle.chart.specs.Charted.{content};
ghost use Rattle.promise.specs.Rehearsed.{Rehearsed};

use crate::calls::{Answer, Call};
use crate::performing::Client;
use analysis::refusals::ReportRefusal;
use analysis::reporting::report;
use bench::stand::Bench;
use bench::stand::playing::Slip;
use chart::charting::Chart;
use chart::numbers::EventId;
use delivery::meaning::Delivery;
use scheduling::refusals::ScheduleRefusal;
use scheduling::scheduling::schedule;
use std::alloc::{AllocFailed, Global};

// What was answered: to each call, to the report and to the schedule; with the bench, and the slips that were not closed.
pub struct Rehearsal<D> {
    pub bench: Bench<D>,
    pub slips: Vec<Slip>,
    pub answers: Vec<Answer>,
    pub report: Result<usize, ReportRefusal>,
    pub schedule: Result<usize, ScheduleRefusal>,
}

// There is no memory for a bench or for the answers; what was handed in comes back.
pub struct Unopened<D> {
    pub delivery: D,
    pub slips: Vec<Slip>,
}

// Opens a bench over the chart and the delivery, makes the calls, and then asks for the report and for the schedule of two
// events. What is reported can happen on the bench, by the schedule that is given; what is not reported does not; and the bench
// is never stuck: for every chart, every delivery and every list of calls. It takes nine parameters and no struct of them, since
// all that stands in one promise stands in the one call that carries it.
pub fn rehearse<D: Delivery>(
    heap: Global,
    chart: &Chart,
    delivery: D,
    mut slips: Vec<Slip>,
    calls: &[Call<'_>],
    first: EventId,
    second: EventId,
    report_buffer: &mut [u8],
    schedule_buffer: &mut [u8],
) -> Result<Rehearsal<D>, Unopened<D>>
    ensures { Rehearsed D.Delivery (content chart.now) delivery slips.items calls.now first.0 second.0 report_buffer.old schedule_buffer.old result report_buffer.new schedule_buffer.new }
{
    // by hand three times: what was handed in goes back from here, and the closure of a `map_err` would take it along, which
    // is needed where there is memory
    let Ok(mut answers) = Vec::with_capacity(heap, calls.len()) else {
        return Err(Unopened { delivery, slips });
    };
    if slips.reserve(calls.len()).is_err() {
        return Err(Unopened { delivery, slips });
    }
    let bench = match Bench::open(heap, chart, delivery) {
        Ok(bench) => bench,
        Err(AllocFailed { value: delivery }) => return Err(Unopened { delivery, slips }),
    };
    let mut client = Client { bench, slips };
    client.perform(calls, &mut answers);
    let Client { bench, slips } = client;
    let report = report(chart, bench.delivery(), report_buffer);
    let schedule = schedule(chart, bench.delivery(), first, second, schedule_buffer);
    Ok(Rehearsal {
        bench,
        slips,
        answers,
        report,
        schedule,
    })
}
