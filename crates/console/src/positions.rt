// Lines and columns of a text.
ghost use Rattle.std.specs.Prelude.{◌≡◌, Some};
ghost use Rattle.console.specs.Positions.{line_after, column_after, position_words};

use std::fmt;

// A place as one who looks for it counts: lines and columns from 1. A column counts bytes, so a tab is one and a
// character of several bytes is several. The numbers are wide enough for one more than any length.
#[derive(Clone, Copy, PartialEq, Eq, Debug)]
pub struct Position {
    pub line: u128,
    pub column: u128,
}

impl Position {
    // The position that follows these bytes.
    pub fn after(before: &[u8]) -> Position
        ensures line { result.line ≡ line_after before.now }
        ensures column { result.column ≡ column_after before.now }
    {
        let feeds = before.iter().filter(|byte| **byte == b'\n').count();
        let others = before
            .iter()
            .rev()
            .take_while(|byte| **byte != b'\n')
            .count();
        Position {
            line: 1 + feeds as u128,
            column: 1 + others as u128,
        }
    }
}

impl fmt::Display for Position {
    ghost output = { λ p. Some (position_words p) };

    fn fmt<W: fmt::Write>(&self, f: &mut fmt::Formatter<W>) -> fmt::Result {
        write!(f, "line {}, column {}", self.line, self.column)
    }
}
