// What a draft has so far.
ghost use Rattle.std.specs.Prelude.{◌≡◌, length, IfSome, nat_lt};
ghost use Rattle.std.specs.Option.{option_map};
ghost use Rattle.chart.specs.Content.{message_names, sender_of, receiver_of};
ghost use Rattle.chart.specs.Drafted.{drafted};
ghost use Rattle.chart.specs.Drafting.{times_received, all_received};
ghost use Rattle.chart.specs.Lookup.{seek};

use super::super::lookup::find;
use super::super::numbers::{InstanceId, MessageId};
use super::super::pieces::Event;
use super::Draft;

// A message that was sent.
#[derive(Clone, Copy)]
pub struct Sent {
    pub number: MessageId,
    pub sender: InstanceId,
    pub receiver: InstanceId,
}

impl Draft {
    pub fn find_instance(&self, text: &[u8]) -> Option<InstanceId>
        ensures { option_map (λ i. i.0) result ≡ seek (λ x. x) text.now (drafted self.now).instances }
    {
        find(&self.parts.instances, text).map(|place| InstanceId(place as u16))
    }

    // The message of this name.
    pub fn find_message(&self, text: &[u8]) -> Option<Sent>
        ensures number { option_map (λ p. p.number.0) result ≡ seek (λ x. x) text.now (message_names (drafted self.now)) }
        ensures sender { IfSome result (λ p. p.sender.0 ≡ sender_of (drafted self.now) p.number.0) }
        ensures receiver { IfSome result (λ p. p.receiver.0 ≡ receiver_of (drafted self.now) p.number.0) }
    {
        let place = find(&self.parts.messages, text)?;
        let message = &self.parts.messages[place];
        Some(Sent {
            number: MessageId(place as u16),
            sender: message.sender,
            receiver: message.receiver,
        })
    }

    pub fn message_count(&self) -> usize
        ensures { result ≡ length (drafted self.now).messages }
    {
        self.parts.messages.len()
    }

    pub fn is_received(&self, message: MessageId) -> bool
        ensures { result ≡ nat_lt 0 (times_received (drafted self.now) message.0) }
    {
        // `any`, which stops where it finds: `contains` looks through whole groups of places, and took longer
        let receipt = Event::In(message);
        self.parts.events.iter().any(|event| *event == receipt)
    }

    pub(crate) fn all_received(&self) -> bool
        ensures { result ≡ all_received (drafted self.now) }
    {
        (0..self.message_count() as u16).all(|message| self.is_received(MessageId(message)))
    }
}
