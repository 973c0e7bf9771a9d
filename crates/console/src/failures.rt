// Why nothing is shown.
ghost use Rattle.std.specs.Prelude.{◌≡◌, Some, cond, is_ok};
ghost use Rattle.std.specs.Process.{exit_status};
ghost use Rattle.console.specs.Failures.{failure_of, meaning, failure_words};

use super::positions::Position;
use reader::reading::ReadError;
use reader::refusals::Refusal;
use std::alloc::AllocError;
use std::process::ExitCode;
use std::{fmt, io};

#[derive(Drop)]
pub enum Failure<M> {
    // The program was called in a way that it doesn't take; each program has words of its own for it.
    Misused(M),
    NoArguments(io::Error),
    Unreadable(io::Error),
    OutOfMemory,
    Refused(Refusal, Position),
    Unwritten(io::Error),
}

impl<M> From<io::Error> for Failure<M> {
    ghost use Rattle.console.specs.declared.failures.Failure.TheVariants.{Unwritten};

    ghost from_gives = { λ error r. r ≡ Unwritten error };

    fn from(error: io::Error) -> Failure<M> {
        Failure::Unwritten(error)
    }
}

impl<M> From<AllocError> for Failure<M> {
    ghost use Rattle.console.specs.declared.failures.Failure.TheVariants.{OutOfMemory};

    ghost from_gives = { λ _ r. r ≡ OutOfMemory };

    fn from(_error: AllocError) -> Failure<M> {
        Failure::OutOfMemory
    }
}

impl<M> Failure<M> {
    // Why this text was not read.
    pub fn refused(error: ReadError, text: &[u8]) -> Failure<M>
        ensures { result ≡ failure_of error text.now }
    {
        match error {
            ReadError::OutOfMemory => Failure::OutOfMemory,
            ReadError::Refused(refusal) => Failure::Refused(
                refusal,
                Position::after(&text[0..refusal.place().min(text.len())]),
            ),
        }
    }
}

// What a refusal means.
#[derive(Clone, Copy)]
struct Meaning(Refusal);

impl fmt::Display for Meaning {
    ghost output = { λ m. Some (meaning m.0) };

    fn fmt<W: fmt::Write>(&self, f: &mut fmt::Formatter<W>) -> fmt::Result {
        f.write_str(match self.0 {
            Refusal::TextTooLong => "the text is longer than 16384 bytes",
            Refusal::Unexpected { .. } =>
                "this is not what the form of a chart wants here, or the text ends early",
            Refusal::NameTooLong { .. } => "the name is longer than 24 bytes",
            Refusal::TooManyInstances { .. } => "this instance is one more than 16",
            Refusal::NamedTwice { .. } => "the name stands here a second time",
            Refusal::UnknownInstance { .. } => "the list of instances lacks this name",
            Refusal::SentToItself { .. } => "the receiver is the sender",
            Refusal::TooManyMessages { .. } => "this message is one more than 64",
            Refusal::NotAsSent { .. } =>
                "no message that waits to be received was sent like this: see its out line, its receiver and its sender",
            Refusal::NotReceived { .. } => "the chart ends, and some message was not received",
        })
    }
}

impl<M: fmt::Display> fmt::Display for Failure<M> {
    ghost output = { failure_words M.output };

    fn fmt<W: fmt::Write>(&self, f: &mut fmt::Formatter<W>) -> fmt::Result {
        match self {
            Failure::Misused(how) => how.fmt(f),
            Failure::NoArguments(error) => write!(f, "cannot read the arguments: {error}"),
            Failure::Unreadable(error) => write!(f, "cannot read the chart text: {error}"),
            Failure::OutOfMemory => write!(f, "out of memory"),
            Failure::Refused(refusal, position) => write!(
                f,
                "refused {} at {}\n{}\n{position}",
                refusal.number(),
                refusal.place(),
                Meaning(*refusal)
            ),
            Failure::Unwritten(error) => write!(f, "cannot write the table: {error}"),
        }
    }
}

// The status that a program ends with, which tells its failure on standard error.
pub fn status<M: fmt::Display + Drop>(rt: &HostRuntime, outcome: Result<(), Failure<M>>) -> ExitCode
    ensures { exit_status result ≡ cond (is_ok outcome) 0 1 }
{
    let Err(failure) = outcome else {
        return ExitCode::SUCCESS;
    };
    // where standard error is closed too, the status alone tells
    let _ = rt.eprintln(&failure);
    ExitCode::FAILURE
}

#[cfg(test)]
mod tests {
    use super::Failure;
    use chart::charting::Chart;
    use reader::reading::read;
    use std::test::Fail;

    // What is written of each refused text.
    const WRITTEN: [(&[u8], &str); 3] = [
        (
            b"msc a; inst p, p; endmsc;",
            "refused 5 at 15\nthe name stands here a second time\nline 1, column 16",
        ),
        (
            b"msc a;\ninst p;\n\tq: out",
            "refused 6 at 16\nthe list of instances lacks this name\nline 3, column 2",
        ),
        (
            b"msc a;\n\n",
            "refused 2 at 8\nthis is not what the form of a chart wants here, or the text ends early\nline 3, column 1",
        ),
    ];

    #[test]
    fn refusals_in_words(rt: HostRuntime) -> Result<(), Fail> {
        for (text, words) in WRITTEN {
            let mut place = Chart::blank(rt.alloc());
            let Err(error) = read(&mut place, text) else {
                return Err(Fail::new("the text is accepted"));
            };
            let failure = Failure::<&str>::refused(error, text);
            assert!(rt; format!(in rt.alloc(); "{failure}")?.as_str() == words);
        }
        Ok(())
    }
}
