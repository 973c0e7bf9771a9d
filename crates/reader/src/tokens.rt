// The tokens of a chart text.
ghost use Rattle.std.specs.Prelude.{◌≡◌, ◌≤◌, length};
ghost use Rattle.std.specs.List.{prefix_len};
ghost use Rattle.chart.specs.Words.{is_word_byte};
ghost use Rattle.reader.specs.Answers.{word_read, rest_read};
ghost use Rattle.reader.specs.Lexemes.{is_blank, place_of, seen, lexeme, left};
ghost use Rattle.reader.specs.Reading.{word_of, keyword_from, semicolon_from};
ghost use Rattle.reader.specs.declared.refusals.Refusal.TheVariants.{Unexpected};

use super::refusals::Refusal;
use chart::words::is_word_byte;

// A part of the text: a word or a mark, borrowed, with the place of its first byte. The end of the text and a byte
// that begins no token are tokens too, so that each place of a text has one.
// A rule of the project (docs/DECISIONS.md): a token is an enum that borrows from the text.
#[derive(Clone, Copy)]
pub enum Token<'a> {
    Word(&'a [u8], usize),
    Semicolon(&'a [u8], usize),
    Comma(&'a [u8], usize),
    Colon(&'a [u8], usize),
    End(usize),
    Stray(usize),
}

impl Token<'_> {
    // The refusal of this token, where another is wanted.
    pub(crate) fn unexpected(&self) -> Refusal
        ensures { result ≡ Unexpected (place_of (seen self.now)) }
    {
        match self {
            Token::Word(_, at)
            | Token::Semicolon(_, at)
            | Token::Comma(_, at)
            | Token::Colon(_, at)
            | Token::End(at)
            | Token::Stray(at) => Refusal::Unexpected { at: *at },
        }
    }
}

// A word, and the place of its first byte.
#[derive(Clone, Copy)]
pub(crate) struct Word<'a> {
    pub text: &'a [u8],
    pub at: usize,
}

impl Word<'_> {
    // The refusal of this word, where another is wanted.
    pub(crate) fn unexpected(self) -> Refusal
        ensures { result ≡ Unexpected self.entry.at }
    {
        Refusal::Unexpected { at: self.at }
    }
}

// A rule of the project (docs/DECISIONS.md): a class of bytes is a `match` on the byte as a character.
pub fn is_blank(byte: u8) -> bool
    ensures { result ≡ is_blank byte }
{
    match byte as char {
        ' ' | '\t' | '\r' | '\n' => true,
        _ => false,
    }
}

// How many word bytes the text begins with. This and the next differ in the test alone, which is all that they hold: each is
// one chain of the library, and one function over a test would take a clause on what the test answers.
fn word_len(text: &[u8]) -> usize
    ensures len { result ≡ prefix_len is_word_byte text.now }
    ensures inside { result ≤ length text.now }
{
    text.iter().take_while(|byte| is_word_byte(**byte)).count()
}

// How many blanks the text begins with.
fn blank_len(text: &[u8]) -> usize
    ensures len { result ≡ prefix_len is_blank text.now }
    ensures inside { result ≤ length text.now }
{
    text.iter().take_while(|byte| is_blank(**byte)).count()
}

// The next token of what is left of a text of `whole` bytes, and what is left after it.
// A rule of the project (docs/DECISIONS.md): a plain pair, and no result that could fail.
// Inlined, here and in `Scanner::next`: a pair that comes back through memory is read again as it was not written, in other
// pieces, and each such read waits. Without this a read of a small chart takes a quarter longer.
#[inline(always)]
pub fn next_token<'a>(rest: &'a [u8], whole: usize) -> (Token<'a>, &'a [u8])
    ensures token { seen result.0 ≡ lexeme whole rest.now }
    ensures rest { result.1.now ≡ left rest.now }
{
    let (_, text) = rest.split_at(blank_len(rest));
    let at = whole.saturating_sub(text.len());
    if text.is_empty() {
        return (Token::End(at), text);
    }
    if is_word_byte(text[0]) {
        let (word, after) = text.split_at(word_len(text));
        return (Token::Word(word, at), after);
    }
    let (mark, after) = text.split_at(1);
    match text[0] as char {
        ';' => (Token::Semicolon(mark, at), after),
        ',' => (Token::Comma(mark, at), after),
        ':' => (Token::Colon(mark, at), after),
        _ => (Token::Stray(at), after),
    }
}

// What is left of a text of `whole` bytes. Each call takes the next token, also one that it refuses.
#[derive(Clone, Copy)]
pub(crate) struct Scanner<'a> {
    pub rest: &'a [u8],
    pub whole: usize,
}

// The clause `whole` relates a value before and after a call, here and in the lines and the steps: no ghost field, a fact of one
// value, can hold it.
impl<'a> Scanner<'a> {
    #[inline(always)]
    pub(crate) fn next(&mut self) -> Token<'a>
        ensures token { seen result ≡ lexeme self.old.whole self.old.rest.now }
        ensures rest { self.new.rest.now ≡ left self.old.rest.now }
        ensures whole { self.new.whole ≡ self.old.whole }
    {
        let (token, rest) = next_token(self.rest, self.whole);
        self.rest = rest;
        token
    }

    // A word.
    // A rule of the project (docs/DECISIONS.md): a token is taken apart by `let .. else`, here and below.
    pub(crate) fn word(&mut self) -> Result<Word<'a>, Refusal>
        ensures word { word_read result ≡ word_of (lexeme self.old.whole self.old.rest.now) }
        ensures rest { self.new.rest.now ≡ left self.old.rest.now }
        ensures whole { self.new.whole ≡ self.old.whole }
    {
        let token = self.next();
        let Token::Word(text, at) = token else {
            return Err(token.unexpected());
        };
        Ok(Word { text, at })
    }

    // The word that is wanted there.
    pub(crate) fn keyword(&mut self, wanted: &[u8]) -> Result<(), Refusal>
        ensures rest { rest_read result self.new.rest.now ≡ keyword_from wanted.now self.old.whole self.old.rest.now }
        ensures whole { self.new.whole ≡ self.old.whole }
    {
        let word = self.word()?;
        if word.text != wanted {
            return Err(word.unexpected());
        }
        Ok(())
    }

    // A semicolon.
    pub(crate) fn semicolon(&mut self) -> Result<(), Refusal>
        ensures rest { rest_read result self.new.rest.now ≡ semicolon_from self.old.whole self.old.rest.now }
        ensures whole { self.new.whole ≡ self.old.whole }
    {
        let token = self.next();
        let Token::Semicolon(..) = token else {
            return Err(token.unexpected());
        };
        Ok(())
    }
}
