// What the program is asked to do.
ghost use Rattle.std.specs.Prelude.{◌≡◌, Some, string_bytes};
ghost use Rattle.std.specs.Option.{option_map};
ghost use Rattle.rehearse.specs.Misuses.{usage_words};
ghost use Rattle.rehearse.specs.Requests.{wish_of, asked};

use console::failures;
use console::source::Source;
use std::{env, fmt};

pub(crate) const USAGE: &str =
    "usage: rehearse [FILE]\nShows the chart of FILE, or of standard input where FILE is left out or is -.";

// The program was called with words that it doesn't take.
#[derive(Clone, Copy)]
pub(crate) struct Misuse;

impl fmt::Display for Misuse {
    ghost output = { λ _. Some usage_words };

    fn fmt<W: fmt::Write>(&self, f: &mut fmt::Formatter<W>) -> fmt::Result {
        f.write_str(USAGE)
    }
}

pub(crate) type Failure = failures::Failure<Misuse>;

// Help is a wish of its own, and no chart that is missing, so this is no Option.
#[derive(Drop)]
pub(crate) enum Request {
    Help,
    Show(Source),
}

// What one word asks for; nothing, if it looks like an option and is none.
fn request_of(word: String) -> Option<Request>
    ensures { option_map wish_of result ≡ asked (string_bytes word) }
{
    match word.as_str() {
        "--help" => Some(Request::Help),
        "-" => Some(Request::Show(Source::Input)),
        option if option.starts_with('-') => None,
        _ => Some(Request::Show(Source::File(word))),
    }
}

pub(crate) fn requested(rt: &HostRuntime) -> Result<Request, Failure> {
    let mut words = env::args(rt).map_err(Failure::NoArguments)?.skip(1);
    let Some(word) = words.next() else {
        return Ok(Request::Show(Source::Input));
    };
    if words.next().is_some() {
        return Err(Failure::Misused(Misuse));
    }
    request_of(word).ok_or(Failure::Misused(Misuse))
}
