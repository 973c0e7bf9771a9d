// A chart as a table.
ghost use Rattle.std.specs.Prelude.{◌≡◌, Some};
ghost use Rattle.std.specs.Option.{option_map};
ghost use Rattle.chart.specs.Charted.{content};
ghost use Rattle.chart.specs.Names.{text_of};
ghost use Rattle.console.specs.Rows.{told, row_of, told_words, partner_of};

use chart::charting::Chart;
use chart::names::Name;
use chart::numbers::{EventId, InstanceId};
use chart::pieces::{Message, Side};
use std::str::from_utf8;
use std::{fmt, io};

// What a row tells of an event: its instance, side and message, and the instance at the other end.
#[derive(Clone, Copy)]
pub struct Row<'a> {
    pub instance: &'a Name,
    pub side: Side,
    pub message: &'a Name,
    pub partner: &'a Name,
}

pub fn shown(name: &Name) -> &str
    ensures { result.now ≡ text_of name.now }
{
    from_utf8(name.text()).unwrap()
}

// The instance at the other end of an event's message.
fn partner(side: Side, message: &Message) -> InstanceId
    ensures { result ≡ partner_of side message.now }
{
    match side {
        Side::Out => message.receiver,
        Side::In => message.sender,
    }
}

impl Row<'_> {
    // The row of an event, if the chart has it.
    pub fn of(chart: &Chart, number: EventId) -> Option<Row<'_>>
        ensures { option_map told result ≡ row_of (content chart.now) number.0 }
    {
        let line = chart.line(number)?;
        let message = &chart.messages()[line.message.0 as usize];
        let partner = partner(line.side, message);
        let instances = chart.instances();
        Some(Row {
            instance: &instances[line.instance.0 as usize],
            side: line.side,
            message: &message.name,
            partner: &instances[partner.0 as usize],
        })
    }
}

// An event as its line tells it, but for the instance, which has a column of its own.
impl fmt::Display for Row<'_> {
    ghost output = { λ row. Some (told_words (told row)) };

    fn fmt<W: fmt::Write>(&self, f: &mut fmt::Formatter<W>) -> fmt::Result {
        let message = shown(self.message);
        let partner = shown(self.partner);
        match self.side {
            Side::Out => write!(f, "out {message} to {partner}"),
            Side::In => write!(f, "in {message} from {partner}"),
        }
    }
}

// The heading of the instances' column is as wide as it is at least.
const HEADING: usize = 8;

fn print_instances(rt: &HostRuntime, chart: &Chart) -> io::Result<()> {
    println!(rt; "instance  name")?;
    for (number, name) in chart.instances().iter().enumerate() {
        println!(rt; "{number:>8}  {}", shown(name))?;
    }
    Ok(())
}

fn print_events(rt: &HostRuntime, chart: &Chart) -> io::Result<()> {
    let widths = chart.instances().iter().map(|name| name.text().len());
    let width = widths.fold(HEADING, usize::max);
    println!(rt; "\n   event  {:<width$}  line", "instance")?;
    // The number is shown, and a row is told by the number of its event: the chart has no list of rows to walk.
    for event in (0..chart.events().len() as u16).map(EventId) {
        if let Some(row) = Row::of(chart, event) {
            let instance = shown(row.instance);
            println!(rt; "{:>8}  {instance:<width$}  {row}", event.0)?;
        }
    }
    Ok(())
}

pub fn print_chart(rt: &HostRuntime, chart: &Chart) -> io::Result<()> {
    if let Some(title) = chart.title() {
        println!(rt; "chart {}\n", shown(&title))?;
    }
    print_instances(rt, chart)?;
    print_events(rt, chart)?;
    let instances = chart.instances().len();
    let messages = chart.messages().len();
    let events = chart.events().len();
    println!(rt; "\ninstances {instances}, messages {messages}, events {events}")
}
