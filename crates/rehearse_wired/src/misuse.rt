// How the program can be called wrongly.
ghost use Rattle.std.specs.Prelude.{◌≡◌, Some};
ghost use Rattle.rehearse_wired.specs.Misuses.{expected_words, misuse_words};
ghost use Rattle.rehearse_wired.specs.Sending.{unbuilt_of};

use super::arguments::Key;
use console::failures;
use layers::unbuilt::Unbuilt;
use std::fmt;

#[derive(Drop)]
pub(crate) enum Misuse {
    // a word that looks like an option and is none
    Stray(String),
    SecondFile,
    Twice(Key),
    NoValue(Key),
    BadValue(Key, String),
    // a layer that cannot be made, without the delivery below it
    Unbuilt(Unbuilt<()>),
    // an instance of the relay that the chart lacks, and the names that it has
    UnknownMember(String, String),
}

pub(crate) type Failure = failures::Failure<Misuse>;

impl From<Misuse> for failures::Failure<Misuse> {
    ghost use Rattle.console.specs.declared.failures.Failure.TheVariants.{Misused};

    ghost from_gives = { λ misuse r. r ≡ Misused misuse };

    fn from(misuse: Misuse) -> Failure {
        Failure::Misused(misuse)
    }
}

impl<D: Drop> From<Unbuilt<D>> for Misuse {
    ghost from_gives = { λ refusal r. r ≡ unbuilt_of refusal };

    fn from(refusal: Unbuilt<D>) -> Misuse {
        Misuse::Unbuilt(match refusal {
            Unbuilt::BoundNumber { number, .. } => Unbuilt::BoundNumber { number, below: () },
            Unbuilt::RelayNumber { number, .. } => Unbuilt::RelayNumber { number, below: () },
        })
    }
}

// What may stand after an option.
#[derive(Clone, Copy)]
struct Expected(Key);

impl fmt::Display for Expected {
    ghost output = { λ expected. Some (expected_words expected.0) };

    fn fmt<W: fmt::Write>(&self, f: &mut fmt::Formatter<W>) -> fmt::Result {
        f.write_str(match self.0 {
            Key::Wiring => "expected bag, paired, mailbox or meeting",
            Key::Bound => "expected a number 1 to 64",
            Key::Relay =>
                "expected a number 16 to 31, a colon, and names of instances with commas between",
            Key::Fire => "expected numbers of events with commas between",
        })
    }
}

impl fmt::Display for Misuse {
    ghost output = { λ misuse. Some (misuse_words misuse) };

    fn fmt<W: fmt::Write>(&self, f: &mut fmt::Formatter<W>) -> fmt::Result {
        match self {
            Misuse::Stray(word) => write!(
                f,
                "unknown option '{word}': expected --wiring, --bound, --relay, --help or the name of a file"
            ),
            Misuse::SecondFile => write!(f, "a second file: expected one"),
            Misuse::Twice(key) => write!(f, "a second {key}: expected one"),
            Misuse::NoValue(key) => write!(f, "nothing after {key}: {}", Expected(*key)),
            Misuse::BadValue(key, word) => write!(f, "{key} '{word}': {}", Expected(*key)),
            Misuse::Unbuilt(refusal) => {
                let (key, number) = match refusal {
                    Unbuilt::BoundNumber { number, .. } => (Key::Bound, *number),
                    Unbuilt::RelayNumber { number, .. } => (Key::Relay, *number),
                };
                let told = refusal.refusal_number();
                write!(f, "refused {told}\n{key} {number}: {}", Expected(key))
            }
            Misuse::UnknownMember(name, known) => write!(
                f,
                "--relay: the chart has no instance '{name}': expected some of {known}"
            ),
        }
    }
}
