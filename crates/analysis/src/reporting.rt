// The report.
ghost use Rattle.std.specs.Prelude.{◌≡◌};
ghost use Rattle.chart.specs.Charted.{content};
ghost use Rattle.analysis.specs.Races.{races_of, ExactPairs};
ghost use Rattle.analysis.specs.Reporting.{counted, reported};

use super::records::{RECORD_BYTES, record_of};
use super::refusals::ReportRefusal;
use super::setting::Setting;
use super::survey::Survey;
use super::writing::Writer;
use chart::charting::Chart;
use delivery::meaning::Delivery;
use matrix::matrices::OrderMatrix;

// Puts a record for each reversible pair at the front of the buffer, rising by the first event and then by the second, and
// answers how many there are.
// Chart and delivery apart, as `fill` does and for its reason.
pub fn report<D: Delivery>(
    chart: &Chart,
    delivery: &D,
    buffer: &mut [u8],
) -> Result<usize, ReportRefusal>
    ensures answer { result ≡ counted (races_of (content chart.now) (D.rule delivery.now) (D.room delivery.now)) buffer.old }
    ensures bytes { buffer.new ≡ reported (races_of (content chart.now) (D.rule delivery.now) (D.room delivery.now)) buffer.old }
    ensures exact { ExactPairs (content chart.now) (D.rule delivery.now) (D.room delivery.now) }
{
    let mut order = OrderMatrix::blank();
    let survey = Survey::of(Setting { chart, delivery }, &mut order);
    let pairs = survey.races().count();
    if buffer.len() < RECORD_BYTES * pairs {
        return Err(ReportRefusal::TooShort { pairs });
    }
    let mut writer = Writer::new(buffer);
    for race in survey.races() {
        writer.push(&record_of(race));
    }
    Ok(pairs)
}
