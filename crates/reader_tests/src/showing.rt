// Charts and answers in words.
use chart::charting::Chart;
use chart::names::Name;
use chart::numbers::EventId;
use chart::pieces::Side;
use reader::reading::ReadError;
use std::io;

fn print_name(rt: &HostRuntime, name: &Name) -> io::Result<()> {
    rt.write_all(b" ")?;
    rt.write_all(name.text())
}

fn print_heading(rt: &HostRuntime, chart: &Chart) -> io::Result<()> {
    print!(rt; "chart")?;
    if let Some(title) = chart.title() {
        print_name(rt, &title)?;
    }
    print!(rt; " with")?;
    for name in chart.instances() {
        print_name(rt, name)?;
    }
    println!(rt; "")
}

fn print_messages(rt: &HostRuntime, chart: &Chart) -> io::Result<()> {
    for message in chart.messages() {
        let sender = message.sender.0;
        let receiver = message.receiver.0;
        print!(rt; " ")?;
        print_name(rt, &message.name)?;
        println!(rt; " {sender} -> {receiver}")?;
    }
    Ok(())
}

fn print_lines(rt: &HostRuntime, chart: &Chart) -> io::Result<()> {
    // The chart hands out its lines by the number of an event, one at a time; it has no list of them to walk.
    let lines = (0..u16::MAX).map_while(|number| chart.line(EventId(number)));
    for (number, line) in lines.enumerate() {
        let instance = line.instance.0;
        let message = line.message.0;
        match line.side {
            Side::Out => println!(rt; "  {number}: {instance} out {message}")?,
            Side::In => println!(rt; "  {number}: {instance} in {message}")?,
        }
    }
    Ok(())
}

pub(crate) fn print_chart(rt: &HostRuntime, chart: &Chart) -> io::Result<()> {
    print_heading(rt, chart)?;
    print_messages(rt, chart)?;
    print_lines(rt, chart)
}

pub(crate) fn print_counts(rt: &HostRuntime, chart: &Chart) -> io::Result<()> {
    let instances = chart.instances().len();
    let messages = chart.messages().len();
    let events = chart.events().len();
    println!(rt; "chart: {instances} instances, {messages} messages, {events} events")
}

pub(crate) fn print_error(rt: &HostRuntime, error: ReadError) -> io::Result<()> {
    match error {
        ReadError::Refused(refusal) => {
            let number = refusal.number();
            let place = refusal.place();
            println!(rt; "refused {number} at {place}")
        }
        ReadError::OutOfMemory => println!(rt; "out of memory"),
    }
}
