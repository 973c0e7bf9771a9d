// What a chart has.
ghost use Rattle.std.specs.Prelude.{◌≡◌};
ghost use Rattle.std.specs.Vec.{vec_allocator};
ghost use Rattle.chart.specs.Charted.{content, line_of};
ghost use Rattle.chart.specs.Content.{nothing};

use super::super::names::Name;
use super::super::numbers::{EventId, InstanceId, MessageId};
use super::super::pieces::{Event, Message, Parts, Side};
use super::Chart;
use std::alloc::Global;

// An event as it is drawn.
#[derive(Clone, Copy, PartialEq, Eq, Debug)]
pub struct Line {
    pub instance: InstanceId,
    pub side: Side,
    pub message: MessageId,
}

impl Chart {
    // A place with no title, instance or event.
    pub fn blank(heap: Global) -> Chart
        ensures { content result ≡ nothing }
    {
        Chart {
            parts: Parts {
                title: None,
                instances: Vec::new(heap),
                messages: Vec::new(heap),
                events: Vec::new(heap),
            },
        }
    }

    pub fn title(&self) -> Option<Name>
        ensures { result ≡ self.now.parts.title }
    {
        self.parts.title
    }

    pub fn instances(&self) -> &[Name]
        ensures { result.now ≡ self.now.parts.instances.items }
    {
        &self.parts.instances
    }

    pub fn messages(&self) -> &[Message]
        ensures { result.now ≡ self.now.parts.messages.items }
    {
        &self.parts.messages
    }

    pub fn events(&self) -> &[Event]
        ensures { result.now ≡ self.now.parts.events.items }
    {
        &self.parts.events
    }

    // The instance, side and message of an event, if the chart has it.
    pub fn line(&self, number: EventId) -> Option<Line>
        ensures { result ≡ line_of (content self.now) number.0 }
    {
        let event = self.parts.events.get(number.0 as usize)?;
        let side = event.side();
        let message = event.message();
        let ends = &self.parts.messages[message.0 as usize];
        Some(Line {
            instance: ends.instance_at(side),
            side,
            message,
        })
    }

    // Where the chart's memory comes from.
    pub fn allocator(&self) -> Global
        ensures { result ≡ vec_allocator self.now.parts.events }
    {
        *self.parts.events.allocator()
    }
}
