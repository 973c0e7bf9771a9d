// A client of plays: it begins one, advances it, and closes it on every way out.
#![tactic(auto)]

mod session;

use anyhow::anyhow;
use bench::stand::Bench;
use chart::charting::Chart;
use reader::reading::read;
use session::{Stop, played};
use wirings::bottoms::PairedLine;

// p sends two messages to q.
const TWIN: &[u8] =
    b"msc twin; inst p, q; p: out a to q; p: out b to q; q: in a from p; q: in b from p; endmsc;";

fn report(rt: &HostRuntime, play: Result<usize, Stop>) -> anyhow::Result<()> {
    match play {
        Ok(fired) => println!(rt; "played to the end, {fired} events fired")?,
        Err(stop) => println!(rt; "{stop}")?,
    }
    Ok(())
}

fn main(rt: HostRuntime) -> anyhow::Result<()> {
    let mut chart = Chart::blank(rt.alloc());
    read(&mut chart, TWIN).map_err(|_| anyhow!("the chart is not read"))?;
    let line = PairedLine::new(rt.alloc())?;
    let mut bench = Bench::open(rt.alloc(), &chart, line).map_err(|_| anyhow!(
        "no memory for a bench"
    ))?;
    report(&rt, played(&mut bench, &[0, 0, 1, 1, 2, 0, 3, 1]))?;
    let _ = bench.clear();
    report(&rt, played(&mut bench, &[0, 0, 1, 1, 3, 1, 2, 0]))?;
    let _ = bench.clear();
    report(&rt, played(&mut bench, &[0, 0, 1, 1]))?;
    Ok(())
}
