// Reads a chart text, shows the chart as a table, sends its messages through a wiring, lists its reversible pairs, and fires
// events on a bench; or says why not.
#![tactic(auto)]

mod arguments;
mod firing;
mod listing;
mod misuse;
mod naming;
mod piles;
mod sending;
mod wiring;

use arguments::{Request, USAGE, requested};
use chart::numbers::EventId;
use console::failures::status;
use console::reading::chart_in;
use console::source::Source;
use misuse::Failure;
use piles::Rehearsal;
use std::process::ExitCode;
use wiring::Wiring;

fn show(
    rt: &HostRuntime,
    source: &Source,
    wiring: &Wiring,
    events: &[EventId],
) -> Result<(), Failure> {
    // Both programs begin so: of a function of console for these two lines no clause could say what a file gives.
    let text = source.bytes(rt).map_err(Failure::Unreadable)?;
    let chart = chart_in(rt.alloc(), &text)?;
    let rehearsal = Rehearsal {
        rt,
        chart: &chart,
        wiring,
        events,
    };
    rehearsal.print()
}

fn run(rt: &HostRuntime) -> Result<(), Failure> {
    match requested(rt)? {
        Request::Help => println!(rt; "{USAGE}")?,
        Request::Rehearse(source, wiring, events) => show(rt, &source, &wiring, &events)?,
    }
    Ok(())
}

fn main(rt: HostRuntime) -> ExitCode {
    status(&rt, run(&rt))
}
