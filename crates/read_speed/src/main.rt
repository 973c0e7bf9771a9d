// Reads a text at every limit as often as it is told, to measure what a read costs.
#![tactic(auto)]

mod making;

use anyhow::Context;
use chart::charting::Chart;
use making::full_text;
use reader::reading::read;
use samples::runs::{FEW, mixed, times};
use std::env;

// What a chart has, in one number.
fn checksum(chart: &Chart) -> u64 {
    chart
        .events()
        .iter()
        .fold(0, |sum, event| mixed(sum, u64::from(event.message().0)))
        .wrapping_add(chart.instances().len() as u64)
}

// The sum over all reads, or nothing if one was refused.
fn read_often(place: &mut Chart, text: &[u8], count: u64) -> Option<u64> {
    let mut sum: u64 = 0;
    for _ in 0..count {
        read(place, text).ok()?;
        sum = sum.wrapping_add(checksum(place));
    }
    Some(sum)
}

fn run(rt: &HostRuntime) -> anyhow::Result<()> {
    let count = times(env::args(rt)?.nth(1), FEW)?;
    let text = full_text(rt.alloc())?;
    let mut place = Chart::blank(rt.alloc());
    let sum = read_often(&mut place, &text, count).context("a text at the limits is refused")?;
    println!(rt;
        "{count} reads of {} bytes, {} events: checksum {sum}",
        text.len(),
        place.events().len()
    )?;
    Ok(())
}

fn main(rt: HostRuntime) -> anyhow::Result<()> {
    run(&rt)
}
