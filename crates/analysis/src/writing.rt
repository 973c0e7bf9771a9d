// Putting bytes at the front of a buffer, one piece after another.
ghost use Rattle.std.specs.Prelude.{◌≡◌, ◌+◌, ◌≤◌, [], length, decimal};
ghost use Rattle.analysis.specs.Writing.{Wrote, Puts, Tries};

// The buffer has no room for what was to be put.
#[derive(Clone, Copy, PartialEq, Eq, Debug)]
pub struct NoRoom;

// A writer is the caller's buffer and how much of it is written: no call allocates one of its own.
#[derive(Drop)]
pub struct Writer<'a> {
    buffer: &'a mut [u8],
    // how many bytes were put
    pub(crate) len: usize,
}

impl<'a> Writer<'a> {
    pub fn new(buffer: &'a mut [u8]) -> Writer<'a>
        ensures same_reference { result.buffer.ghost_name ≡ buffer.entry.ghost_name }
        ensures empty { Wrote buffer.old [] result }
        ensures room { length result.buffer.now ≡ length buffer.old }
    {
        Writer { buffer, len: 0 }
    }

    // Puts nothing where there is no room for all the bytes.
    pub fn put(&mut self, bytes: &[u8]) -> Result<(), NoRoom>
        ensures { Tries self.old bytes.now result self.new }
    {
        let room = self.buffer.len();
        if self.len > room || bytes.len() > room - self.len {
            return Err(NoRoom);
        }
        self.push(bytes);
        Ok(())
    }

    pub(crate) fn push(&mut self, bytes: &[u8])
        requires { self.old.len + length bytes.now ≤ length self.old.buffer.now }
        ensures { Puts self.old bytes.now self.new }
    {
        let end = self.len + bytes.len();
        self.buffer[self.len..end].copy_from_slice(bytes);
        self.len = end;
    }

    // The number in decimal digits. A `write!` would not do: what it promises holds where it succeeds, and that it does
    // succeed where there is room is not known.
    pub(crate) fn push_number(&mut self, number: usize)
        requires { self.old.len + length (decimal number) ≤ length self.old.buffer.now }
        ensures { Puts self.old (decimal number) self.new }
    {
        if number < 10 {
            return self.push(&[b'0' + number as u8]);
        }
        self.push_number(number / 10);
        self.push(&[b'0' + (number % 10) as u8]);
    }
}
