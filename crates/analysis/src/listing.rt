// The listing.
ghost use Rattle.std.specs.Prelude.{◌≡◌, ◌≤◌, length};
ghost use Rattle.chart.specs.Charted.{content};
ghost use Rattle.analysis.specs.Listing.{race_line, count_line, line_answer, line_written};
ghost use Rattle.analysis.specs.Races.{races_of, InChart, ExactPairs};
ghost use Rattle.analysis.specs.Writing.{Fronted};

use super::races::Race;
use super::refusals::ListingRefusal;
use super::setting::Setting;
use super::survey::Survey;
use super::writing::Writer;
use chart::charting::Chart;
use delivery::meaning::Delivery;
use matrix::matrices::OrderMatrix;

// A buffer of this length takes any line.
pub const LINE_ROOM: usize = 48;

// `race a b NAME`
fn put_race(buffer: &mut [u8], chart: &Chart, race: Race) -> usize
    requires room { 48 ≤ length buffer.old }
    requires known { InChart (content chart.now) race }
    ensures front { Fronted buffer.old (race_line (content chart.now) race) buffer.new }
    ensures long { result ≡ length (race_line (content chart.now) race) }
{
    let name = chart.instances()[race.instance.0 as usize].text();
    let mut line = Writer::new(buffer);
    line.push(b"race ");
    line.push_number(race.first.0 as usize);
    line.push(b" ");
    line.push_number(race.second.0 as usize);
    line.push(b" ");
    line.push(name);
    line.push(b"\n");
    line.len
}

// `pairs N`
fn put_count(buffer: &mut [u8], pairs: usize) -> usize
    requires room { 48 ≤ length buffer.old }
    requires few { pairs ≤ 16384 }
    ensures front { Fronted buffer.old (count_line pairs) buffer.new }
    ensures long { result ≡ length (count_line pairs) }
{
    let mut line = Writer::new(buffer);
    line.push(b"pairs ");
    line.push_number(pairs);
    line.push(b"\n");
    line.len
}

// Puts one line of the listing, counted from 0, at the front of the buffer, and answers its length: a line for each
// reversible pair, in the report's order, and then their count.
// Chart and delivery apart, as `fill` does and for its reason. `ExactPairs`, here and in the other promises, is a theorem on the two
// and no state that a type could hold: each promise says for itself which pairs are told.
pub fn listing_line<D: Delivery>(
    chart: &Chart,
    delivery: &D,
    line: usize,
    buffer: &mut [u8],
) -> Result<usize, ListingRefusal>
    ensures answer { result ≡ line_answer (content chart.now) (races_of (content chart.now) (D.rule delivery.now) (D.room delivery.now)) line buffer.old }
    ensures bytes { buffer.new ≡ line_written (content chart.now) (races_of (content chart.now) (D.rule delivery.now) (D.room delivery.now)) line buffer.old }
    ensures exact { ExactPairs (content chart.now) (D.rule delivery.now) (D.room delivery.now) }
{
    if buffer.len() < LINE_ROOM {
        return Err(ListingRefusal::TooShort);
    }
    let mut order = OrderMatrix::blank();
    let survey = Survey::of(Setting { chart, delivery }, &mut order);
    let mut walk = survey.races();
    if let Some(race) = walk.nth(line) {
        return Ok(put_race(buffer, chart, race));
    }
    let pairs = walk.given();
    if line > pairs {
        return Err(ListingRefusal::BeyondLast);
    }
    Ok(put_count(buffer, pairs))
}
