// Why a text comes back.
ghost use Rattle.std.specs.Prelude.{◌≡◌};
ghost use Rattle.reader.specs.Refusals.{number, place};

use super::reading::TEXT_LIMIT;

// A refusal, with the place of the byte at which it stands.
#[derive(Clone, Copy, PartialEq, Eq, Debug)]
pub enum Refusal {
    // 1: the text is longer than 16,384 bytes.
    TextTooLong,
    // 2: a token that the form does not want there, a byte that begins none, or an early end.
    Unexpected { at: usize },
    // 3: a wanted name is over 24 bytes long.
    NameTooLong { at: usize },
    // 4: a seventeenth instance.
    TooManyInstances { at: usize },
    // 5: an instance in the list or a message in an out line that is named twice.
    NamedTwice { at: usize },
    // 6: an instance that is not in the list.
    UnknownInstance { at: usize },
    // 7: an out line's receiver is its sender.
    SentToItself { at: usize },
    // 8: a sixty-fifth message.
    TooManyMessages { at: usize },
    // 9: an in line's message was not sent, was received before, or has another receiver or sender.
    NotAsSent { at: usize },
    // 10: at `endmsc`, some message was not received.
    NotReceived { at: usize },
}

impl Refusal {
    // A rule of the project (docs/CHART_TEXT.md): each refusal has its number.
    pub fn number(self) -> u8
        ensures { result ≡ number self }
    {
        match self {
            Refusal::TextTooLong => 1,
            Refusal::Unexpected { .. } => 2,
            Refusal::NameTooLong { .. } => 3,
            Refusal::TooManyInstances { .. } => 4,
            Refusal::NamedTwice { .. } => 5,
            Refusal::UnknownInstance { .. } => 6,
            Refusal::SentToItself { .. } => 7,
            Refusal::TooManyMessages { .. } => 8,
            Refusal::NotAsSent { .. } => 9,
            Refusal::NotReceived { .. } => 10,
        }
    }

    // A rule of the project (docs/CHART_TEXT.md): each refusal has its place; of a text too long it is the limit.
    pub fn place(self) -> usize
        ensures { result ≡ place self }
    {
        match self {
            Refusal::TextTooLong => TEXT_LIMIT,
            Refusal::Unexpected { at }
            | Refusal::NameTooLong { at }
            | Refusal::TooManyInstances { at }
            | Refusal::NamedTwice { at }
            | Refusal::UnknownInstance { at }
            | Refusal::SentToItself { at }
            | Refusal::TooManyMessages { at }
            | Refusal::NotAsSent { at }
            | Refusal::NotReceived { at } => at,
        }
    }
}
