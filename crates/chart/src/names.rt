// A name, and what always holds of it.
ghost use Rattle.std.specs.Prelude.{◌≡◌, ◌-◌, ◌≤◌, ◌++◌, true, length, take, replicate};
ghost use Rattle.chart.specs.Words.{is_name};

pub mod naming;

// The longest name, in bytes.
pub const NAME_LIMIT: usize = 24;

// A word of at most 24 bytes that begins with a letter and is not reserved. Its bytes lie in place, with a length beside
// them, since a chart is copied with no memory asked for name by name.
#[derive(Clone, Copy, PartialEq, Eq, Debug)]
pub struct Name {
    bytes: [u8; NAME_LIMIT],
    len: usize,
    ghost short: { len ≤ 24 },
    ghost valid: { is_name (take len bytes) ≡ true },
    // zeros after the text, so that names are equal exactly if their texts are
    ghost full: { length bytes ≡ 24 },
    ghost padded: { bytes ≡ take len bytes ++ replicate (24 - len) 0 },
}

// Why a text is no name.
#[derive(Clone, Copy, PartialEq, Eq, Debug)]
pub enum NameRefusal {
    // It is no word, or one that begins with no letter or is reserved.
    NotAName,
    // It is over 24 bytes long, and nothing else is wrong with it.
    TooLong,
}
