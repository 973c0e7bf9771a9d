// The reversible pairs, for programs.
ghost use Rattle.std.specs.Prelude.{◌≡◌, IfOk};
ghost use Rattle.chart.specs.Charted.{content};
ghost use Rattle.analysis.specs.Races.{races_of, ExactPairs};

use super::setting::Setting;
use super::survey::Survey;
use chart::charting::Chart;
use chart::numbers::{EventId, InstanceId};
use chart::pieces::Side;
use delivery::meaning::Delivery;
use matrix::matrices::OrderMatrix;
use std::alloc::{AllocError, Global};

// Two events of one instance, the first drawn above the second, that can come the other way round; the side is that of the first.
#[derive(Clone, Copy)]
pub struct Race {
    pub first: EventId,
    pub second: EventId,
    pub instance: InstanceId,
    pub side: Side,
}

// All reversible pairs, rising by the first event and then by the second.
// Chart and delivery apart, as `fill` does and for its reason.
pub fn races<D: Delivery>(
    heap: Global,
    chart: &Chart,
    delivery: &D,
) -> Result<Vec<Race>, AllocError>
    ensures lists { IfOk result (λ v. v.items ≡ races_of (content chart.now) (D.rule delivery.now) (D.room delivery.now)) }
    ensures exact { ExactPairs (content chart.now) (D.rule delivery.now) (D.room delivery.now) }
{
    let mut order = OrderMatrix::blank();
    let survey = Survey::of(Setting { chart, delivery }, &mut order);
    let walk = survey.races();
    walk.collect(heap)
}
