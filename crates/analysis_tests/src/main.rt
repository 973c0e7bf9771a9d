// Lists charts whose reversible pairs are known over every wiring, and tries the calls at their limits.
#![tactic(auto)]

mod charts;
mod making;
mod showing;

use analysis::listing::LINE_ROOM;
use analysis::races::races;
use analysis::records::RECORD_BYTES;
use chart::charting::Chart;
use chart::pieces::Side;
use charts::{CHARTS, CROWD, STEP};
use delivery::meaning::Delivery;
use layers::bound::Bound;
use layers::group::Group;
use layers::relay::Relay;
use making::wide_text;
use reader::reading::read;
use showing::Trial;
use std::io;
use wirings::bottoms::{Bag, Mailbox, Meeting, PairedLine};

// Shows a chart by its text. What shows it takes `rt` and the chart, and no struct of both, so it can be handed in as it is.
fn over_text<F: FnOnce(&HostRuntime, &Chart) -> io::Result<()>>(
    rt: &HostRuntime,
    text: &[u8],
    show: F,
) -> io::Result<()>
    requires { F.IsAlwaysCallable show }
{
    let mut chart = Chart::blank(rt.alloc());
    if read(&mut chart, text).is_err() {
        return println!(rt; "not read");
    }
    show(rt, &chart)
}

fn list<D: Delivery + Drop>(
    rt: &HostRuntime,
    wiring: &str,
    chart: &Chart,
    delivery: D,
) -> io::Result<()> {
    Trial {
        rt,
        chart,
        delivery,
    }
    .print_listing(wiring)
}

fn over_bag<'a>(rt: &'a HostRuntime, chart: &'a Chart) -> io::Result<Trial<'a, Bag>> {
    let delivery = Bag::new(rt.alloc())?;
    Ok(Trial {
        rt,
        chart,
        delivery,
    })
}

fn try_bottoms(rt: &HostRuntime, chart: &Chart) -> io::Result<()> {
    list(rt, "bag", chart, Bag::new(rt.alloc())?)?;
    list(rt, "paired line", chart, PairedLine::new(rt.alloc())?)?;
    list(rt, "mailbox", chart, Mailbox::new(rt.alloc())?)?;
    list(rt, "meeting", chart, Meeting::one_at_a_time(rt.alloc())?)
}

fn try_charts(rt: &HostRuntime) -> io::Result<()> {
    let mut chart = Chart::blank(rt.alloc());
    println!(rt; "blank")?;
    try_bottoms(rt, &chart)?;
    for (number, text) in CHARTS.iter().enumerate() {
        println!(rt; "chart {number}")?;
        if read(&mut chart, text).is_err() {
            println!(rt; "not read")?;
        }
        try_bottoms(rt, &chart)?;
    }
    Ok(())
}

fn try_bound(rt: &HostRuntime, chart: &Chart, number: u16) -> io::Result<()> {
    match Bound::new(PairedLine::new(rt.alloc())?, number) {
        Ok(bound) => list(rt, "bound over paired line", chart, bound),
        Err(_) => println!(rt; "no bound"),
    }
}

fn try_relay(rt: &HostRuntime, chart: &Chart) -> io::Result<()> {
    let mut group = [false; 16];
    group[0] = true;
    group[1] = true;
    match Relay::new(PairedLine::new(rt.alloc())?, Group(group), 16) {
        Ok(relay) => list(rt, "relay over paired line", chart, relay),
        Err(_) => println!(rt; "no relay"),
    }
}

fn try_layers(rt: &HostRuntime, chart: &Chart) -> io::Result<()> {
    try_bound(rt, chart, 3)?;
    try_bound(rt, chart, 2)?;
    try_relay(rt, chart)
}

fn print_races(rt: &HostRuntime, chart: &Chart) -> io::Result<()> {
    let found = races(rt.alloc(), chart, &Bag::new(rt.alloc())?)?;
    for race in &found {
        // No Display: a side is a word by itself only here and in `reader_tests`; elsewhere it chooses a whole phrase.
        let side = match race.side {
            Side::Out => "out",
            Side::In => "in",
        };
        println!(rt;
            "{} and {} at {}, {side} first",
            race.first.0, race.second.0, race.instance.0
        )?;
    }
    Ok(())
}

// Buffers shorter than the report, as long, and longer.
fn try_reports(rt: &HostRuntime, chart: &Chart) -> io::Result<()> {
    let trial = over_bag(rt, chart)?;
    for length in 0..=9usize {
        trial.print_report(&mut [238u8; 9][0..length])?;
    }
    Ok(())
}

// The last line, the one after it, and a buffer that is a byte too short.
fn try_line_limits(rt: &HostRuntime, chart: &Chart) -> io::Result<()> {
    let trial = over_bag(rt, chart)?;
    let mut buffer = [0u8; LINE_ROOM];
    trial.print_line(2, &mut buffer)?;
    trial.print_line(3, &mut buffer)?;
    trial.print_line(0, &mut buffer[1..])
}

fn try_limits(rt: &HostRuntime, chart: &Chart) -> io::Result<()> {
    print_races(rt, chart)?;
    try_reports(rt, chart)?;
    try_line_limits(rt, chart)
}

// A byte too few, and as many as are wanted; and then the last record.
fn try_long_reports(rt: &HostRuntime, chart: &Chart, buffer: &mut [u8]) -> io::Result<()> {
    let trial = over_bag(rt, chart)?;
    let room = buffer.len();
    if room < RECORD_BYTES {
        return println!(rt; "no room");
    }
    trial.print_answer(&mut buffer[0..room - 1])?;
    println!(rt; "")?;
    trial.print_answer(buffer)?;
    for byte in &buffer[room - RECORD_BYTES..] {
        print!(rt; " {byte}")?;
    }
    println!(rt; "")
}

// Every two of 64 receives over a bag: 2,016 pairs.
fn try_wide(rt: &HostRuntime, chart: &Chart) -> io::Result<()> {
    try_long_reports(rt, chart, &mut [0u8; 2016 * RECORD_BYTES])?;
    let trial = over_bag(rt, chart)?;
    let mut line = [0u8; LINE_ROOM];
    trial.print_line(0, &mut line)?;
    trial.print_line(2015, &mut line)?;
    trial.print_line(2016, &mut line)?;
    trial.print_line(2017, &mut line)?;
    list(rt, "meeting", chart, Meeting::one_at_a_time(rt.alloc())?)
}

fn main(rt: HostRuntime) -> io::Result<()> {
    try_charts(&rt)?;
    over_text(&rt, CROWD, try_layers)?;
    over_text(&rt, STEP, try_limits)?;
    over_text(&rt, &wide_text(rt.alloc())?, try_wide)
}
