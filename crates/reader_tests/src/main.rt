// Reads texts whose answers are known: a table of refusals, charts told in full, and texts at the limits.
#![tactic(auto)]

mod accepted;
mod cases;
mod comparing;
mod making;
mod showing;

use accepted::ACCEPTED;
use cases::{Case, REFUSED};
use chart::charting::Chart;
use chart::pieces::Side;
use comparing::same_charts;
use making::{add_lines, filled, heading, list_of};
use reader::reading::{ReadError, TEXT_LIMIT, read};
use showing::{print_chart, print_counts, print_error};
use std::io;

// A chart to read over.
const FORMER: &[u8] =
    b"msc former; inst x, y, z; x: out one to y; z: out two to x; x: in two from z; y: in one from x; endmsc;";

fn is_expected(answer: &Result<(), ReadError>, number: u8, place: usize) -> bool {
    matches!(
        answer,
        Err(ReadError::Refused(refusal)) if refusal.number() == number && refusal.place() == place
    )
}

// Each refused text, read over a filled place and over a blank one: the refusal, and both places as they were.
fn try_refused(rt: &HostRuntime) -> io::Result<()> {
    let mut former = Chart::blank(rt.alloc());
    let mut kept = Chart::blank(rt.alloc());
    let mut blank = Chart::blank(rt.alloc());
    if read(&mut former, FORMER).is_err() || read(&mut kept, FORMER).is_err() {
        return println!(rt; "the former chart is not read");
    }
    for (index, Case(text, number, place)) in REFUSED.iter().enumerate() {
        let over = read(&mut kept, text);
        let fresh = read(&mut blank, text);
        if !is_expected(&over, *number, *place) || !is_expected(&fresh, *number, *place) {
            println!(rt; "case {index}: not refused {number} at {place}")?;
        }
        if !same_charts(&kept, &former) || !same_charts(&blank, &Chart::blank(rt.alloc())) {
            println!(rt; "case {index}: the place has changed")?;
        }
    }
    let count = REFUSED.len();
    println!(rt; "{count} texts refused")
}

// Each chart, read over the one before.
fn try_accepted(rt: &HostRuntime) -> io::Result<()> {
    let mut place = Chart::blank(rt.alloc());
    for text in ACCEPTED.iter() {
        match read(&mut place, text) {
            Ok(()) => print_chart(rt, &place)?,
            Err(error) => print_error(rt, error)?,
        }
    }
    Ok(())
}

fn answer(rt: &HostRuntime, what: &str, text: &[u8]) -> io::Result<()> {
    let mut place = Chart::blank(rt.alloc());
    print!(rt; "{what}: ")?;
    match read(&mut place, text) {
        Ok(()) => print_counts(rt, &place),
        Err(error) => print_error(rt, error),
    }
}

fn try_instances(rt: &HostRuntime) -> io::Result<()> {
    let mut sixteen = list_of(rt.alloc(), 16)?;
    sixteen.extend_from_slice(b"; endmsc;")?;
    answer(rt, "16 instances", &sixteen)?;
    let mut seventeen = list_of(rt.alloc(), 17)?;
    seventeen.extend_from_slice(b"; endmsc;")?;
    answer(rt, "17 instances", &seventeen)?;
    let mut again = list_of(rt.alloc(), 16)?;
    again.extend_from_slice(b", i00; endmsc;")?;
    answer(rt, "16 instances and the first again", &again)
}

fn try_messages(rt: &HostRuntime) -> io::Result<()> {
    let mut text = heading(rt.alloc())?;
    add_lines(&mut text, Side::Out, 64)?;
    let sent = text.len();
    text.extend_from_slice(b"endmsc;")?;
    answer(rt, "64 messages, none received", &text)?;
    text.truncate(sent);
    text.extend_from_slice(b"p: out m64 to q;")?;
    answer(rt, "65 messages", &text)?;
    text.truncate(sent);
    text.extend_from_slice(b"p: out m00 to q;")?;
    answer(rt, "64 messages and the first again", &text)?;
    text.truncate(sent);
    add_lines(&mut text, Side::In, 64)?;
    text.extend_from_slice(b"q: out m64 to p;")?;
    answer(rt, "64 messages received and a 65th", &text)
}

fn try_full(rt: &HostRuntime) -> io::Result<()> {
    let mut text = heading(rt.alloc())?;
    add_lines(&mut text, Side::Out, 64)?;
    add_lines(&mut text, Side::In, 63)?;
    let short = text.len();
    text.extend_from_slice(b"endmsc;")?;
    answer(rt, "64 messages, the last not received", &text)?;
    text.truncate(short);
    text.extend_from_slice(b"q: in m63 from p;endmsc;")?;
    answer(rt, "64 messages received", &text)?;
    filled(&mut text, b'\n', TEXT_LIMIT)?;
    answer(rt, "the same, filled to the limit", &text)?;
    text.push(b' ')?;
    answer(rt, "one byte more", &text)
}

fn try_lengths(rt: &HostRuntime) -> io::Result<()> {
    let mut blanks = Vec::new(rt.alloc());
    filled(&mut blanks, b'\t', TEXT_LIMIT)?;
    answer(rt, "blanks up to the limit", &blanks)?;
    let mut bytes = Vec::new(rt.alloc());
    filled(&mut bytes, 255, 20_000)?;
    answer(rt, "20000 bytes that begin no token", &bytes)?;
    let mut word = Vec::from_slice(rt.alloc(), b"msc ")?;
    filled(&mut word, b'a', TEXT_LIMIT)?;
    answer(rt, "a word up to the limit", &word)
}

fn main(rt: HostRuntime) -> io::Result<()> {
    try_refused(&rt)?;
    try_accepted(&rt)?;
    try_instances(&rt)?;
    try_messages(&rt)?;
    try_full(&rt)?;
    try_lengths(&rt)
}
