// Making a name of a text, and reading it again.
ghost use Rattle.std.specs.Prelude.{◌≡◌, length};
ghost use Rattle.std.specs.Str.{bytes_eq};
ghost use Rattle.chart.specs.Names.{text_of, name_of, judged};

use super::super::repeats::Same;
use super::super::words::is_name_like;
use super::{NAME_LIMIT, Name, NameRefusal};

impl Name {
    pub fn new(text: &[u8]) -> Result<Name, NameRefusal>
        ensures { name_of result ≡ judged text.now }
    {
        if !is_name_like(text) {
            return Err(NameRefusal::NotAName);
        }
        if text.len() > NAME_LIMIT {
            return Err(NameRefusal::TooLong);
        }
        let mut bytes = [0u8; NAME_LIMIT];
        bytes[0..text.len()].copy_from_slice(text);
        Ok(Name {
            bytes,
            len: text.len(),
        })
    }

    pub fn text(&self) -> &[u8]
        ensures { result.now ≡ text_of self.now }
    {
        &self.bytes[0..self.len]
    }
}

// Two names are the same if their texts are.
impl Same for Name {
    ghost same = { λ a b. bytes_eq (text_of a) (text_of b) };

    fn is_same(&self, other: &Self) -> bool {
        self == other
    }
}
