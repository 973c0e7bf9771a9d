// Reads a chart text and shows the chart as a table, or says why the text comes back.
#![tactic(auto)]

mod arguments;

use arguments::{Failure, Request, USAGE, requested};
use console::failures::status;
use console::reading::chart_in;
use console::source::Source;
use console::table::print_chart;
use std::process::ExitCode;

fn show(rt: &HostRuntime, source: &Source) -> Result<(), Failure> {
    // Both programs begin so: of a function of console for these two lines no clause could say what a file gives.
    let text = source.bytes(rt).map_err(Failure::Unreadable)?;
    let chart = chart_in(rt.alloc(), &text)?;
    print_chart(rt, &chart)?;
    Ok(())
}

fn run(rt: &HostRuntime) -> Result<(), Failure> {
    match requested(rt)? {
        Request::Help => println!(rt; "{USAGE}")?,
        Request::Show(source) => show(rt, &source)?,
    }
    Ok(())
}

fn main(rt: HostRuntime) -> ExitCode {
    status(&rt, run(&rt))
}
