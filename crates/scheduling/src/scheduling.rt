// The schedule of a reversible pair.
ghost use Rattle.chart.specs.Charted.{content};
ghost use Rattle.scheduling.specs.Scheduling.{Schedules};

use super::firings::FIRING_BYTES;
use super::passes::Plan;
use super::refusals::ScheduleRefusal;
use analysis::outlook::judge;
use analysis::writing::Writer;
use chart::charting::Chart;
use chart::numbers::EventId;
use delivery::meaning::Delivery;

// Puts a record for each event at the front of the buffer, in an order of firing that has the second event before the first
// and lets as few messages wait at once as can be, and answers how many there are.
// Chart and delivery apart, since the signature is asked for.
pub fn schedule<D: Delivery>(
    chart: &Chart,
    delivery: &D,
    first: EventId,
    second: EventId,
    buffer: &mut [u8],
) -> Result<usize, ScheduleRefusal>
    ensures { Schedules (content chart.now) (D.rule delivery.now) (D.room delivery.now) first.0 second.0 buffer.old result buffer.new }
{
    let outlook = judge(chart, delivery, first, second)?;
    let events = chart.events().len();
    if buffer.len() < FIRING_BYTES * events {
        return Err(ScheduleRefusal::TooShort);
    }
    let plan = Plan {
        chart,
        outlook: &outlook,
    };
    plan.put_all(&mut Writer::new(buffer));
    Ok(events)
}
