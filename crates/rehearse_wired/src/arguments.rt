// What the program is asked to do.
ghost use Rattle.std.specs.Prelude.{◌≡◌, IfOk, Some, string_bytes};
ghost use Rattle.rehearse_wired.specs.Misuses.{key_words};
ghost use Rattle.rehearse_wired.specs.Requests.{kind_of, RelayRead, value_of, stands, Joined, source_set, AsksFor};

use super::misuse::{Failure, Misuse};
use super::wiring::{Bottom, RelayWish, Wiring};
use chart::numbers::EventId;
use console::source::Source;
use std::alloc::{AllocError, Global};
use std::{env, fmt};

pub(crate) const USAGE: &str =
    "usage: rehearse_wired [--wiring bag|paired|mailbox|meeting] [--bound N] [--relay N:INSTANCE,INSTANCE..] [--fire EVENT,EVENT..] [FILE]
Shows the chart of FILE, or of standard input where FILE is left out or is -, sends its messages through the wiring, and
lists the pairs of events that the wiring lets come the other way round.
  --wiring  bag, paired, mailbox or meeting; paired where it is left out
  --bound   a bound of N, 1 to 64, over it
  --relay   a relay with the number N, 16 to 31, over that, for the instances named
  --fire    fires these events one after the other on a bench over the wiring
  --help    shows this";

// An option that takes the word after it.
#[derive(Clone, Copy)]
pub(crate) enum Key {
    Wiring,
    Bound,
    Relay,
    Fire,
}

impl fmt::Display for Key {
    ghost output = { λ key. Some (key_words key) };

    fn fmt<W: fmt::Write>(&self, f: &mut fmt::Formatter<W>) -> fmt::Result {
        f.write_str(match self {
            Key::Wiring => "--wiring",
            Key::Bound => "--bound",
            Key::Relay => "--relay",
            Key::Fire => "--fire",
        })
    }
}

// What a word stands for where an option or the file may stand.
#[derive(Clone, Copy)]
pub(crate) enum Kind {
    Help,
    Input,
    File,
    Option(Key),
    // it looks like an option and is none
    Stray,
}

impl From<&str> for Kind {
    ghost from_gives = { λ word kind. kind ≡ kind_of word.now };

    fn from(word: &str) -> Kind {
        match word {
            "--wiring" => Kind::Option(Key::Wiring),
            "--bound" => Kind::Option(Key::Bound),
            "--relay" => Kind::Option(Key::Relay),
            "--fire" => Kind::Option(Key::Fire),
            "--help" => Kind::Help,
            "-" => Kind::Input,
            option if option.starts_with('-') => Kind::Stray,
            _ => Kind::File,
        }
    }
}

// Help is a wish of its own, and no rehearsal that is missing, so this is no Option.
#[derive(Drop)]
pub(crate) enum Request {
    Help,
    Rehearse(Source, Wiring, Vec<EventId>),
}

// What was asked for so far; None where nothing was.
#[derive(Default, Drop)]
pub(crate) struct Choices {
    pub source: Option<Source>,
    pub bottom: Option<Bottom>,
    pub bound: Option<u16>,
    pub relay: Option<RelayWish>,
    pub events: Option<Vec<EventId>>,
}

// A number, a colon, and names. Whether the chart has the names is seen when it has been read.
fn relay_of(heap: Global, word: &str) -> Result<Option<RelayWish>, AllocError>
    ensures { IfOk result (RelayRead word.now) }
{
    let Some((digits, names)) = word.split_once(':') else {
        return Ok(None);
    };
    let Ok(number) = digits.parse() else {
        return Ok(None);
    };
    let members = String::from_str(heap, names)?;
    Ok(Some(RelayWish { number, members }))
}

// Numbers with commas between.
fn events_of(heap: Global, word: &str) -> Result<Option<Vec<EventId>>, AllocError> {
    let numbers = word.split(',').map(|digits| digits.parse().ok());
    numbers.map(|number| number.map(EventId)).collect(heap)
}

// What was read of an option's word, if anything was.
fn value<T: Drop>(read: Option<T>, key: Key, word: String) -> Result<Option<T>, Failure>
    ensures { result ≡ value_of read key word }
{
    let bad = Failure::Misused(Misuse::BadValue(key, word));
    read.map(Some).ok_or(bad)
}

impl Choices {
    fn has(&self, key: Key) -> bool
        ensures { result ≡ stands self.now key }
    {
        match key {
            Key::Wiring => self.bottom.is_some(),
            Key::Bound => self.bound.is_some(),
            Key::Relay => self.relay.is_some(),
            Key::Fire => self.events.is_some(),
        }
    }

    fn with_source(self, source: Source) -> Result<Choices, Failure>
        ensures { result ≡ source_set self source }
    {
        if self.source.is_some() {
            return Err(Failure::Misused(Misuse::SecondFile));
        }
        Ok(Choices {
            source: Some(source),
            ..self
        })
    }

    // The choices and an option with its word, which stands at most once.
    fn with_option(self, heap: Global, key: Key, word: String) -> Result<Choices, Failure>
        ensures { Joined self key word result }
    {
        if self.has(key) {
            return Err(Failure::Misused(Misuse::Twice(key)));
        }
        Ok(match key {
            Key::Wiring => Choices {
                bottom: value(word.parse().ok(), key, word)?,
                ..self
            },
            Key::Bound => Choices {
                bound: value(word.parse().ok(), key, word)?,
                ..self
            },
            Key::Relay => Choices {
                relay: value(relay_of(heap, word.as_str())?, key, word)?,
                ..self
            },
            Key::Fire => Choices {
                events: value(events_of(heap, word.as_str())?, key, word)?,
                ..self
            },
        })
    }

    fn request(self, heap: Global) -> Request
        ensures { AsksFor self result }
    {
        Request::Rehearse(
            self.source.unwrap_or(Source::Input),
            Wiring {
                bottom: self.bottom.unwrap_or(Bottom::PairedLine),
                bound: self.bound,
                relay: self.relay,
            },
            self.events.unwrap_or(Vec::new(heap)),
        )
    }
}

fn words_read(heap: Global, words: Vec<String>) -> Result<Request, Failure> {
    let mut choices = Choices::default();
    let mut words = words.into_iter();
    while let Some(word) = words.next() {
        choices = match Kind::from(word.as_str()) {
            Kind::Help => return Ok(Request::Help),
            Kind::Input => choices.with_source(Source::Input)?,
            Kind::File => choices.with_source(Source::File(word))?,
            Kind::Option(key) => {
                let value = words.next().ok_or(Misuse::NoValue(key))?;
                choices.with_option(heap, key, value)?
            }
            Kind::Stray => return Err(Failure::Misused(Misuse::Stray(word))),
        };
    }
    Ok(choices.request(heap))
}

pub(crate) fn requested(rt: &HostRuntime) -> Result<Request, Failure> {
    let words = env::args(rt).map_err(Failure::NoArguments)?.skip(1);
    words_read(rt.alloc(), words.collect(rt.alloc())?)
}
