// Pieces of a chart's text, with names that are a letter, some bytes and two digits.
ghost use Rattle.std.specs.Prelude.{◌≡◌, ◌-◌, IfOk};
ghost use Rattle.samples.specs.Texts.{name_text, line_text, instances_text, numbered_text, chart_text, lines_text};

use chart::pieces::Side;
use std::alloc::{AllocError, Global};

// As many as a chart can have.
pub const INSTANCES: u8 = 16;

pub const MESSAGES: u8 = 64;

// How the names of a text are made: the letter, the bytes between, and the last two digits of a number.
#[derive(Clone, Copy)]
pub struct Naming<'a> {
    pub heap: Global,
    pub between: &'a [u8],
}

impl<'a> Naming<'a> {
    fn name(&self, letter: u8, number: u8) -> Result<Vec<u8>, AllocError>
        ensures { IfOk result (λ v. v.items ≡ name_text letter self.now.between.now number) }
    {
        // No `{:02}`, which writes three digits from 100 on.
        let digits = [b'0' + number / 10 % 10, b'0' + number % 10];
        let pieces: [&[u8]; 3] = [&[letter], self.between, &digits];
        pieces.concat(self.heap)
    }

    // `i00, i01, ..`: as many names as the count, and at least one.
    pub fn instances(&self, count: u8) -> Result<Vec<u8>, AllocError>
        ensures { IfOk result (λ v. v.items ≡ instances_text self.now.between.now (count - 1)) }
    {
        let mut text = self.name(b'i', 0)?;
        // No chain: every step allocates, and names that are collected first would be copied once more by a join.
        for number in 1..count {
            text.extend_from_slice(b", ")?;
            text.extend_from_slice(&self.name(b'i', number)?)?;
        }
        Ok(text)
    }

    // The line of an event, each name by its number, and a line feed.
    pub fn line(
        &self,
        side: Side,
        message: u8,
        sender: u8,
        receiver: u8,
    ) -> Result<Vec<u8>, AllocError>
        ensures { IfOk result (λ v. v.items ≡ numbered_text self.now.between.now side message sender receiver) }
    {
        let message = self.name(b'm', message)?;
        let sender = self.name(b'i', sender)?;
        let receiver = self.name(b'i', receiver)?;
        let mut text = line_of(self.heap, side, &message, &sender, &receiver)?;
        text.push(b'\n')?;
        Ok(text)
    }

    // A whole chart: its title, as many instances as the count, and the lines of its events.
    pub fn chart(&self, title: &[u8], count: u8, lines: &[u8]) -> Result<Vec<u8>, AllocError>
        ensures { IfOk result (λ v. v.items ≡ chart_text title.now (instances_text self.now.between.now (count - 1)) lines.now) }
    {
        let instances = self.instances(count)?;
        [
            b"msc ", title, b"; inst ", &instances, b";\n", lines, b"endmsc;",
        ]
        .concat(self.heap)
    }
}

// `SENDER: out MESSAGE to RECEIVER;` or `RECEIVER: in MESSAGE from SENDER;`.
fn line_of(
    heap: Global,
    side: Side,
    message: &[u8],
    sender: &[u8],
    receiver: &[u8],
) -> Result<Vec<u8>, AllocError>
    ensures { IfOk result (λ v. v.items ≡ line_text side message.now sender.now receiver.now) }
{
    match side {
        Side::Out => [sender, b": out ", message, b" to ", receiver, b";"].concat(heap),
        Side::In => [receiver, b": in ", message, b" from ", sender, b";"].concat(heap),
    }
}

// A line for each of so many messages from `p` to `q`, named `m00`, `m01` and so on.
pub fn lines(heap: Global, side: Side, count: u8) -> Result<Vec<u8>, AllocError>
    ensures { IfOk result (λ v. v.items ≡ lines_text side count) }
{
    let names = Naming { heap, between: b"" };
    let mut text = Vec::new(heap);
    // A loop for the reason given in `instances`.
    for number in 0..count {
        let message = names.name(b'm', number)?;
        text.extend_from_slice(&line_of(heap, side, &message, b"p", b"q")?)?;
    }
    Ok(text)
}
