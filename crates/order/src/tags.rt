// What a wiring sees of a chart's messages.
ghost use Rattle.std.specs.Prelude.{◌≡◌, ◌≤◌, ◌⊎◌, MatchOption};
ghost use Rattle.chart.specs.Charted.{content};
ghost use Rattle.order.specs.Scenes.{known_tag};

use chart::charting::Chart;
use chart::numbers::{InstanceId, MessageId};
use delivery::parcel::Tag;
use delivery::station::Station;

// None if a number is too great for a tag.
fn tag_between(from: InstanceId, to: InstanceId) -> Option<Tag>
    ensures { MatchOption result ((128 ≤ from.0) ⊎ (128 ≤ to.0)) (λ t. (t.sender.number ≡ from.0) × (t.receiver.number ≡ to.0)) }
{
    let sender = Station::try_from(from.0).ok()?;
    let receiver = Station::try_from(to.0).ok()?;
    Some(Tag { sender, receiver })
}

// A message's tag: the numbers of its sender and its receiver. None if the chart has no such message.
pub fn tag_of(chart: &Chart, message: MessageId) -> Option<Tag>
    ensures { result ≡ known_tag (content chart.now) message.0 }
{
    let ends = chart.messages().get(message.0 as usize)?;
    tag_between(ends.sender, ends.receiver)
}
