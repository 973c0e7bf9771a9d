// The parts of a chart text that repeat: the list of instances, and the event lines.
ghost use Rattle.std.specs.Prelude.{◌≡◌};
ghost use Rattle.reader.specs.Answers.{step_read, part_read, at, Stepped, Follows};
ghost use Rattle.reader.specs.Reading.{Stepping, instance_step, line_step, part_from};

use super::lines::Drawing;
use super::refusals::Refusal;
use super::tokens::Token;

impl<'a> Drawing<'a> {
    // A comma and a further name, or the semicolon that ends the list: its place.
    fn next_instance(&mut self) -> Result<Option<usize>, Refusal>
        ensures step { step_read result self.new ≡ at instance_step self.old }
        ensures whole { self.new.scanner.whole ≡ self.old.scanner.whole }
    {
        let token = self.scanner.next();
        if let Token::Semicolon(_, at) = token {
            return Ok(Some(at));
        }
        let Token::Comma(..) = token else {
            return Err(token.unexpected());
        };
        self.scanner.word()?.further_instance(&mut self.draft)?;
        Ok(None)
    }

    // An event line, or `endmsc`: its place.
    fn next_line(&mut self) -> Result<Option<usize>, Refusal>
        ensures step { step_read result self.new ≡ at line_step self.old }
        ensures whole { self.new.scanner.whole ≡ self.old.scanner.whole }
    {
        let word = self.scanner.word()?;
        if word.text == b"endmsc".as_slice() {
            return Ok(Some(word.at));
        }
        let instance = word.instance(&self.draft)?;
        self.event_line(instance)?;
        Ok(None)
    }

    // Steps up to the end of a part: the place where it ended.
    fn to_end<F: Fn(&mut Drawing<'a>) -> Result<Option<usize>, Refusal>>(
        &mut self,
        step: F,
    ) -> Result<usize, Refusal>
        requires callable { F.IsAlwaysCallable step }
        requires steps { Stepped (λ d r e. F.post step d r e) }
        ensures part { (steps : Stepping) → Follows (λ d r e. F.post step d r e) steps → part_read result self.new ≡ at (part_from steps) self.old }
        ensures whole { self.new.scanner.whole ≡ self.old.scanner.whole }
    {
        loop {
            if let Some(at) = step(self)? {
                return Ok(at);
            }
        }
    }

    // The list of instances up to its semicolon, past the first name.
    pub(crate) fn instances(&mut self) -> Result<usize, Refusal>
        ensures part { part_read result self.new ≡ at (part_from instance_step) self.old }
        ensures whole { self.new.scanner.whole ≡ self.old.scanner.whole }
    {
        self.to_end(Drawing::next_instance)
    }

    // The event lines up to `endmsc`.
    pub(crate) fn lines(&mut self) -> Result<usize, Refusal>
        ensures part { part_read result self.new ≡ at (part_from line_step) self.old }
        ensures whole { self.new.scanner.whole ≡ self.old.scanner.whole }
    {
        self.to_end(Drawing::next_line)
    }
}
