// Reports the reversible pairs of a chart with 128 events as often as it is told, to measure what a report costs.
#![tactic(auto)]

mod making;

use analysis::report;
use anyhow::anyhow;
use chart::charting::Chart;
use delivery::meaning::Delivery;
use making::ring_text;
use reader::reading::read;
use samples::runs::{FEW, mixed, times};
use std::env;
use wirings::bottoms::{Bag, Mailbox, PairedLine};

// Room for a record of 4 bytes for every two of 128 events.
const ROOM: usize = 32_768;

// `read_speed` sums other numbers: what the two chains share is `mixed`.
fn checksum(bytes: &[u8]) -> u64 {
    bytes
        .iter()
        .fold(0, |sum, byte| mixed(sum, u64::from(*byte)))
}

fn measure<D: Delivery>(
    rt: &HostRuntime,
    name: &str,
    chart: &Chart,
    delivery: &D,
    count: u64,
) -> anyhow::Result<()> {
    let mut buffer = vec![in rt.alloc(); 0u8; ROOM]?;
    let mut pairs = 0;
    for _ in 0..count {
        pairs = report(chart, delivery, &mut buffer).map_err(|_| anyhow!("a report is refused"))?;
    }
    let sum = checksum(&buffer);
    println!(rt; "{count} reports over the {name}: {pairs} pairs, checksum {sum}")?;
    Ok(())
}

fn run(rt: &HostRuntime) -> anyhow::Result<()> {
    let count = times(env::args(rt)?.nth(1), FEW)?;
    let text = ring_text(rt.alloc())?;
    let mut chart = Chart::blank(rt.alloc());
    read(&mut chart, &text).map_err(|_| anyhow!("the chart is refused"))?;
    measure(rt, "bag", &chart, &Bag::new(rt.alloc())?, count)?;
    measure(
        rt,
        "paired line",
        &chart,
        &PairedLine::new(rt.alloc())?,
        count,
    )?;
    measure(rt, "mailbox", &chart, &Mailbox::new(rt.alloc())?, count)
}

fn main(rt: HostRuntime) -> anyhow::Result<()> {
    run(&rt)
}
