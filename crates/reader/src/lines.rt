// The lines of a chart text, token by token.
ghost use Rattle.std.specs.Prelude.{◌≡◌, ◌<◌, length, IfOk};
ghost use Rattle.chart.specs.Content.{sender_of};
ghost use Rattle.chart.specs.Drafted.{drafted};
ghost use Rattle.chart.specs.Names.{text_of};
ghost use Rattle.reader.specs.Answers.{name_read, instance_read, message_read, line_read, draft_read, at};
ghost use Rattle.reader.specs.Reading.{no_name, name_at, instance_at, further_at, new_message_at, receiver_at, sent_message_at, sender_is, out_line, in_line, event_line};

use super::refusals::Refusal;
use super::tokens::{Scanner, Token, Word};
use chart::drafting::consulting::Sent;
use chart::drafting::{Draft, InstanceRefusal, MESSAGE_LIMIT};
use chart::names::{Name, NameRefusal};
use chart::numbers::InstanceId;

fn no_name(why: NameRefusal, at: usize) -> Refusal
    ensures { result ≡ no_name why at }
{
    match why {
        NameRefusal::NotAName => Refusal::Unexpected { at },
        NameRefusal::TooLong => Refusal::NameTooLong { at },
    }
}

// What a word names, where it stands.
impl Word<'_> {
    pub(crate) fn name(self) -> Result<Name, Refusal>
        ensures { name_read result ≡ name_at self.entry.text.now self.entry.at }
    {
        Name::new(self.text).map_err(|why| no_name(why, self.at))
    }

    pub(crate) fn instance(self, draft: &Draft) -> Result<InstanceId, Refusal>
        ensures { instance_read result ≡ instance_at (drafted draft.now) self.entry.text.now self.entry.at }
    {
        let name = self.name()?;
        draft
            .find_instance(name.text())
            .ok_or(Refusal::UnknownInstance { at: self.at })
    }

    // A further name of the list of instances.
    pub(crate) fn further_instance(self, draft: &mut Draft) -> Result<(), Refusal>
        ensures { draft_read result (drafted draft.new) ≡ further_at (drafted draft.old) self.entry.text.now self.entry.at }
    {
        let name = self.name()?;
        draft.add_instance(name).map_err(|why| match why {
            InstanceRefusal::TooMany => Refusal::TooManyInstances { at: self.at },
            InstanceRefusal::NamedTwice => Refusal::NamedTwice { at: self.at },
        })
    }

    // An out line's message.
    fn new_message(self, draft: &Draft) -> Result<Name, Refusal>
        ensures { name_read result ≡ new_message_at (drafted draft.now) self.entry.text.now self.entry.at }
    {
        let name = self.name()?;
        if draft.find_message(name.text()).is_some() {
            return Err(Refusal::NamedTwice { at: self.at });
        }
        if draft.message_count() >= MESSAGE_LIMIT {
            return Err(Refusal::TooManyMessages { at: self.at });
        }
        Ok(name)
    }

    // An out line's receiver.
    fn receiver(self, draft: &Draft, sender: InstanceId) -> Result<InstanceId, Refusal>
        ensures { instance_read result ≡ receiver_at (drafted draft.now) sender.0 self.entry.text.now self.entry.at }
    {
        let receiver = self.instance(draft)?;
        if sender == receiver {
            return Err(Refusal::SentToItself { at: self.at });
        }
        Ok(receiver)
    }

    // An in line's message, which was sent to this receiver and not received before.
    fn sent_message(self, draft: &Draft, receiver: InstanceId) -> Result<Sent, Refusal>
        ensures number { message_read result ≡ sent_message_at (drafted draft.now) receiver.0 self.entry.text.now self.entry.at }
        ensures sender { IfOk result (λ m. m.sender.0 ≡ sender_of (drafted draft.now) m.number.0) }
    {
        let name = self.name()?;
        let not_sent = Refusal::NotAsSent { at: self.at };
        let message = draft.find_message(name.text()).ok_or(not_sent)?;
        if draft.is_received(message.number) || message.receiver != receiver {
            return Err(not_sent);
        }
        Ok(message)
    }

    // An in line's sender.
    fn check_sender(self, draft: &Draft, sender: InstanceId) -> Result<(), Refusal>
        ensures { result ≡ sender_is (drafted draft.now) sender.0 self.entry.text.now self.entry.at }
    {
        if self.instance(draft)? != sender {
            return Err(Refusal::NotAsSent { at: self.at });
        }
        Ok(())
    }
}

// A chart that is being drawn, and what is left of its text.
#[derive(Drop)]
pub(crate) struct Drawing<'a> {
    pub draft: Draft,
    pub scanner: Scanner<'a>,
}

impl Drawing<'_> {
    // The rest of an out line, past `out`.
    fn out_line(&mut self, sender: InstanceId) -> Result<(), Refusal>
        requires { sender.0 < length (drafted self.old.draft).instances }
        ensures line { line_read result self.new ≡ at (λ n c bs. out_line n c sender.0 bs) self.old }
        ensures whole { self.new.scanner.whole ≡ self.old.scanner.whole }
    {
        let message = self.scanner.word()?.new_message(&self.draft)?;
        self.scanner.keyword(b"to")?;
        let receiver = self.scanner.word()?.receiver(&self.draft, sender)?;
        self.scanner.semicolon()?;
        let Ok(_) = self.draft.send(message, sender, receiver) else {
            unreachable()
        };
        Ok(())
    }

    // The rest of an in line, past `in`.
    fn in_line(&mut self, receiver: InstanceId) -> Result<(), Refusal>
        ensures line { line_read result self.new ≡ at (λ n c bs. in_line n c receiver.0 bs) self.old }
        ensures whole { self.new.scanner.whole ≡ self.old.scanner.whole }
    {
        let message = self.scanner.word()?.sent_message(&self.draft, receiver)?;
        self.scanner.keyword(b"from")?;
        self.scanner
            .word()?
            .check_sender(&self.draft, message.sender)?;
        self.scanner.semicolon()?;
        let Ok(()) = self.draft.receive(message.number) else {
            unreachable()
        };
        Ok(())
    }

    // The rest of an event line, past the name of its instance.
    pub(crate) fn event_line(&mut self, instance: InstanceId) -> Result<(), Refusal>
        requires { instance.0 < length (drafted self.old.draft).instances }
        ensures line { line_read result self.new ≡ at (λ n c bs. event_line n c instance.0 bs) self.old }
        ensures whole { self.new.scanner.whole ≡ self.old.scanner.whole }
    {
        let token = self.scanner.next();
        let Token::Colon(..) = token else {
            return Err(token.unexpected());
        };
        let word = self.scanner.word()?;
        match word.text {
            b"out" => self.out_line(instance),
            b"in" => self.in_line(instance),
            _ => Err(word.unexpected()),
        }
    }
}
