// What is proved, each theorem in the contract of a function that computes nothing.
ghost use Rattle.chart.specs.Charted.{content};
ghost use Rattle.order.specs.Order.{Scene, Laws};
ghost use Rattle.order.specs.Statements.{Theory};
ghost use Rattle.order.specs.Verdict.{Judged};

use chart::charting::Chart;
use delivery::meaning::Delivery;

// Of every scene with its laws, however it came about: the order is sound, decidable and computed in one pass; every run can
// be completed; and two events are reversible exactly if some complete run reverses them, with a known least peak.
pub fn theory_stands()
    ensures { (s : Scene) → Laws s → Theory s }
{}

// Of any chart and any delivery, the same; and the report has exactly the pairs that some complete run reverses.
pub fn judged<D: Delivery>(chart: &Chart, delivery: &D)
    ensures { Judged (content chart.now) (D.Delivery.rule delivery.now) (D.Delivery.room delivery.now) }
{}
