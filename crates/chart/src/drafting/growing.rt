// How a draft grows.
ghost use Rattle.std.specs.Prelude.{◌≡◌, length, IfOk, MatchResult, OnErr};
ghost use Rattle.chart.specs.Drafted.{drafted};
ghost use Rattle.chart.specs.Drafting.{begun, listed, dispatched, delivered, leaving};
ghost use Rattle.chart.specs.Names.{text_of};

use super::super::names::Name;
use super::super::numbers::{InstanceId, MessageId};
use super::super::pieces::{Event, Message, Parts};
use super::super::repeats::first_repeat;
use super::{
    Draft, EVENT_LIMIT, INSTANCE_LIMIT, InstanceRefusal, MESSAGE_LIMIT, ReceiveRefusal, SendRefusal,
};
use std::alloc::{AllocError, Global};

impl Draft {
    pub fn new(heap: Global, title: Name, first: Name) -> Result<Draft, AllocError>
        ensures { IfOk result (λ d. drafted d ≡ begun (text_of title) (text_of first)) }
    {
        let mut instances = Vec::with_capacity(heap, INSTANCE_LIMIT)?;
        let messages = Vec::with_capacity(heap, MESSAGE_LIMIT)?;
        let events = Vec::with_capacity(heap, EVENT_LIMIT)?;
        instances.push_reserved(first);
        Ok(Draft {
            parts: Parts {
                title: Some(title),
                instances,
                messages,
                events,
            },
        })
    }

    // One instance more.
    pub fn add_instance(&mut self, name: Name) -> Result<(), InstanceRefusal>
        ensures answer { leaving result (drafted self.new) ≡ listed (drafted self.old) (text_of name) }
        ensures unchanged { OnErr result (drafted self.new ≡ drafted self.old) }
    {
        let instances = &mut self.parts.instances;
        if instances.len() >= INSTANCE_LIMIT {
            return Err(InstanceRefusal::TooMany);
        }
        instances.push_reserved(name);
        if first_repeat(instances).is_some() {
            let _ = instances.pop();
            return Err(InstanceRefusal::NamedTwice);
        }
        Ok(())
    }

    // One message more, with its out event.
    pub fn send(
        &mut self,
        name: Name,
        sender: InstanceId,
        receiver: InstanceId,
    ) -> Result<MessageId, SendRefusal>
        ensures answer { leaving result (drafted self.new) ≡ dispatched (drafted self.old) (text_of name) sender.0 receiver.0 }
        ensures number { MatchResult result (λ m. m.0 ≡ length (drafted self.old).messages) (λ _. drafted self.new ≡ drafted self.old) }
    {
        if self.find_message(name.text()).is_some() {
            return Err(SendRefusal::NamedTwice);
        }
        let count = self.parts.messages.len();
        if count >= MESSAGE_LIMIT {
            return Err(SendRefusal::TooMany);
        }
        if sender.0 as usize >= self.parts.instances.len() {
            return Err(SendRefusal::NoSender);
        }
        if receiver.0 as usize >= self.parts.instances.len() {
            return Err(SendRefusal::NoReceiver);
        }
        if sender == receiver {
            return Err(SendRefusal::ToItself);
        }
        let message = MessageId(count as u16);
        let Parts {
            messages,
            events,
            ..
        } = &mut self.parts;
        messages.push_reserved(Message {
            name,
            sender,
            receiver,
        });
        events.push_reserved(Event::Out(message));
        Ok(message)
    }

    // The in event of a message that was sent.
    pub fn receive(&mut self, message: MessageId) -> Result<(), ReceiveRefusal>
        ensures answer { leaving result (drafted self.new) ≡ delivered (drafted self.old) message.0 }
        ensures unchanged { OnErr result (drafted self.new ≡ drafted self.old) }
    {
        if message.0 as usize >= self.parts.messages.len() {
            return Err(ReceiveRefusal::NotSent);
        }
        if self.is_received(message) {
            return Err(ReceiveRefusal::Again);
        }
        self.parts.events.push_reserved(Event::In(message));
        Ok(())
    }
}
