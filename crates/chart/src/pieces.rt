// The parts of a chart.
ghost use Rattle.std.specs.Prelude.{◌≡◌, ◌≤◌, vec_len};
ghost use Rattle.chart.specs.Content.{InstancesApart, MessagesApart, AllJoin, Numbered, AllSent, NoneTwice};
ghost use Rattle.chart.specs.Kept.{kept};
ghost use Rattle.chart.specs.Pieces.{message_number, side_of, instance_at};

use super::names::Name;
use super::numbers::{InstanceId, MessageId};

// The side of a message that an event is on.
#[derive(Clone, Copy, PartialEq, Eq, Debug)]
pub enum Side {
    Out,
    In,
}

// An event: a message leaves its sender, or arrives at its receiver.
#[derive(Clone, Copy, PartialEq, Eq, Debug)]
pub enum Event {
    Out(MessageId),
    In(MessageId),
}

impl Event {
    pub fn message(self) -> MessageId
        ensures { result ≡ message_number self }
    {
        match self {
            Event::Out(message) => message,
            Event::In(message) => message,
        }
    }

    pub fn side(self) -> Side
        ensures { result ≡ side_of self }
    {
        match self {
            Event::Out(_) => Side::Out,
            Event::In(_) => Side::In,
        }
    }
}

#[derive(Clone, Copy, PartialEq, Eq, Debug)]
pub struct Message {
    pub name: Name,
    pub sender: InstanceId,
    pub receiver: InstanceId,
}

impl Message {
    // The instance that this side of the message is on.
    pub fn instance_at(&self, side: Side) -> InstanceId
        ensures { result ≡ instance_at self.now side }
    {
        match side {
            Side::Out => self.sender,
            Side::In => self.receiver,
        }
    }
}

// A chart's names and lines, as far as it is drawn: what holds of each draft and of each chart. A blank place has no
// title.
#[derive(Drop)]
pub(crate) struct Parts {
    pub title: Option<Name>,
    pub instances: Vec<Name>,
    pub messages: Vec<Message>,
    pub events: Vec<Event>,
    ghost few_instances: { vec_len instances ≤ 16 },
    ghost few_messages: { vec_len messages ≤ 64 },
    ghost instances_apart: { InstancesApart (kept title instances messages events) },
    ghost messages_apart: { MessagesApart (kept title instances messages events) },
    // the sender and the receiver of each message are two of the instances
    ghost all_join: { AllJoin (kept title instances messages events) },
    ghost numbered: { Numbered (kept title instances messages events) },
    ghost all_sent: { AllSent (kept title instances messages events) },
    ghost none_twice: { NoneTwice (kept title instances messages events) },
}
