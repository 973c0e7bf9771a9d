// Reading a whole chart text into a chart place.
ghost use Rattle.std.specs.Prelude.{◌≡◌, OnErr};
ghost use Rattle.chart.specs.Drafted.{drafted};
ghost use Rattle.chart.specs.Charted.{content};
ghost use Rattle.reader.specs.Answers.{heading_read, content_read, ChartRead, PlaceRead, PlaceMeans, ReadsTexts};
ghost use Rattle.reader.specs.Reading.{reading, heading_from, body_from, ending};
ghost use Rattle.reader.specs.declared.reading.ReadError.TheVariants.{Refused, OutOfMemory};

use super::lines::Drawing;
use super::refusals::Refusal;
use super::tokens::{Scanner, Token};
use chart::charting::Chart;
use chart::drafting::Draft;
use chart::names::Name;
use std::alloc::{AllocError, Global};

// The longest text that is read, in bytes.
pub const TEXT_LIMIT: usize = 16_384;

// Why a chart place was not filled.
#[derive(Clone, Copy, PartialEq, Eq, Debug)]
pub enum ReadError {
    Refused(Refusal),
    OutOfMemory,
}

impl From<Refusal> for ReadError {
    ghost from_gives = { λ e r. r ≡ Refused e };

    fn from(refusal: Refusal) -> ReadError {
        ReadError::Refused(refusal)
    }
}

impl From<AllocError> for ReadError {
    ghost from_gives = { λ _ r. r ≡ OutOfMemory };

    fn from(_error: AllocError) -> ReadError {
        ReadError::OutOfMemory
    }
}

// The title line, and the list of instances up to its first name: the two names.
fn heading(scanner: &mut Scanner<'_>) -> Result<(Name, Name), Refusal>
    ensures names { heading_read result scanner.new.rest.now ≡ heading_from scanner.old.whole scanner.old.rest.now }
    ensures whole { scanner.new.whole ≡ scanner.old.whole }
{
    scanner.keyword(b"msc")?;
    let title = scanner.word()?.name()?;
    scanner.semicolon()?;
    scanner.keyword(b"inst")?;
    let first = scanner.word()?.name()?;
    Ok((title, first))
}

// Past `endmsc`: a semicolon, and then blanks only.
fn closing(mut scanner: Scanner<'_>) -> Result<(), Refusal>
    ensures { result ≡ ending scanner.entry.whole scanner.entry.rest.now }
{
    scanner.semicolon()?;
    let token = scanner.next();
    let Token::End(_) = token else {
        return Err(token.unexpected());
    };
    Ok(())
}

// Past the first name of the list: the other instances, the lines, and the end.
fn read_body(draft: Draft, scanner: Scanner<'_>) -> Result<Chart, Refusal>
    ensures { content_read result ≡ body_from scanner.entry.whole (drafted draft) scanner.entry.rest.now }
{
    let mut drawing = Drawing { draft, scanner };
    drawing.instances()?;
    let at = drawing.lines()?;
    let Drawing { draft, scanner } = drawing;
    // `ok_or(..)?` was tried: it is the same test in one line, with a goal more, which was not answered.
    let Some(chart) = draft.finish() else {
        return Err(Refusal::NotReceived { at });
    };
    closing(scanner)?;
    Ok(chart)
}

fn read_chart(heap: Global, text: &[u8]) -> Result<Chart, ReadError>
    ensures { ChartRead result (reading text.now) }
{
    let whole = text.len();
    if whole > TEXT_LIMIT {
        return Err(ReadError::from(Refusal::TextTooLong));
    }
    let mut scanner = Scanner { rest: text, whole };
    let (title, first) = heading(&mut scanner)?;
    let draft = Draft::new(heap, title, first)?;
    let chart = read_body(draft, scanner)?;
    Ok(chart)
}

// Fills the place with the chart of the text, or says why not and leaves it as it was.
pub fn read(place: &mut Chart, text: &[u8]) -> Result<(), ReadError>
    ensures answer { PlaceRead result (content place.new) (reading text.now) }
    ensures unchanged { OnErr result (place.new ≡ place.old) }
    ensures meaning { PlaceMeans result (content place.new) text.now }
    ensures exact { ReadsTexts text.now }
{
    let chart = read_chart(place.allocator(), text)?;
    *place = chart;
    Ok(())
}
