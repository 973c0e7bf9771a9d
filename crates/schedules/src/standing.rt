// What is proved of schedules, in the contract of a function that computes nothing.
ghost use Rattle.chart.specs.Charted.{content};
ghost use Rattle.schedules.specs.Planned.{Scheduled};

use chart::charting::Chart;
use delivery::meaning::Delivery;

// Of any chart and any delivery: the schedule of a reversible pair fires every event once, each as the rules let it be fired,
// has the later-drawn event before the other, and lets no more messages wait at once than every such order must.
pub fn schedules_stand<D: Delivery>(chart: &Chart, delivery: &D)
    ensures { Scheduled (content chart.now) (D.Delivery.rule delivery.now) (D.Delivery.room delivery.now) }
{}
