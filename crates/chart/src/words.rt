// Which bytes make up words, and which words are reserved.
ghost use Rattle.std.specs.Prelude.{◌≡◌};
ghost use Rattle.chart.specs.Words.{is_letter, is_word_byte, all_of, reserved, lettered, name_like};

// A byte class is a match on the byte as a char, with its ranges written out: the rule for the text format.
fn is_letter(byte: u8) -> bool
    ensures { result ≡ is_letter byte }
{
    match byte as char {
        'A'..='Z' | 'a'..='z' => true,
        _ => false,
    }
}

pub fn is_word_byte(byte: u8) -> bool
    ensures { result ≡ is_word_byte byte }
{
    match byte as char {
        'A'..='Z' | 'a'..='z' | '0'..='9' | '_' => true,
        _ => false,
    }
}

fn all_word_bytes(text: &[u8]) -> bool
    ensures { result ≡ all_of is_word_byte text.now }
{
    text.iter().all(|byte| is_word_byte(*byte))
}

fn begins_with_letter(text: &[u8]) -> bool
    ensures { result ≡ lettered text.now }
{
    text.first().is_some_and(|byte| is_letter(*byte))
}

// The words that a chart's text itself is made of. A match, and no search of a list of them: each name that is read is asked about.
pub(crate) fn is_reserved(text: &[u8]) -> bool
    ensures { result ≡ reserved text.now }
{
    match text {
        b"msc" | b"inst" | b"out" | b"in" | b"to" | b"from" | b"endmsc" => true,
        _ => false,
    }
}

// Whether the text is a word that may name something, if it is not too long.
pub(crate) fn is_name_like(text: &[u8]) -> bool
    ensures { result ≡ name_like text.now }
{
    all_word_bytes(text) && begins_with_letter(text) && !is_reserved(text)
}
