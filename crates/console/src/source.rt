// Where a chart text comes from.
use reader::reading::TEXT_LIMIT;
use std::fs::File;
use std::io;
use std::io::Read;

// Standard input is asked for by name, as a file is: no Option, where it would be a file that is missing.
#[derive(Drop)]
pub enum Source {
    Input,
    File(String),
}

// One byte past the limit is enough to refuse a longer text, so that an input without end does no harm.
const ENOUGH: u64 = TEXT_LIMIT as u64 + 1;

impl Source {
    // Its bytes, but no more than are enough. No clause says so: std's `read_to_end` promises the limit of a `take` only where it
    // is known beforehand what the reader gives.
    pub fn bytes(&self, rt: &HostRuntime) -> io::Result<Vec<u8>> {
        let mut bytes = Vec::new(rt.alloc());
        match self {
            Source::Input => rt.stdin().take(ENOUGH).read_to_end(&mut bytes)?,
            Source::File(path) => File::open(rt, path.as_str())?
                .take(ENOUGH)
                .read_to_end(&mut bytes)?,
        };
        Ok(bytes)
    }
}
