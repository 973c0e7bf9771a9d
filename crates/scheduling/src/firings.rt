// The number of an event, and the bytes that its record takes.
ghost use Rattle.std.specs.Prelude.{◌≡◌};
ghost use Rattle.chart.specs.Charted.{content};
ghost use Rattle.chart.specs.Shown.{happening};
ghost use Rattle.order.specs.Scenes.{number_of};

use chart::charting::Chart;
use chart::numbers::EventId;
use chart::pieces::Event;

pub const FIRING_BYTES: usize = 2;

// The number of an event; that after the last, if the chart lacks it. A number and no Option: the definition `number_of`, by
// which all contracts tell an event's number, says so of each event.
pub(crate) fn number_of(chart: &Chart, event: Event) -> EventId
    ensures { result.0 ≡ number_of (content chart.now) (happening event) }
{
    let events = chart.events();
    let number = events.iter().position(|other| *other == event);
    EventId(number.unwrap_or(events.len()) as u16)
}
