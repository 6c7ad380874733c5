// The lines of an input, one at a time. What is read stands in a buffer that the caller lends.
ghost use Rattle.std.specs.Prelude.{◌≡◌, ◌+◌, ◌-◌, ◌≤◌, true, false, length, take};
ghost use Rattle.lines.specs.Reader.{fed, pending, standing, step, Inside, Given, Finds};

use std::io::{Read, Write};

// The bytes from `at` to `end` are read and not yet given. `more`: there may be more to read. These are places and no slice, which would
// keep the buffer from being read into. The buffer stays the caller's, and `Inside`, which ties the two, a clause: a reader with the buffer in it would lend a
// line out of itself, of which no clause could say what is read and not yet given afterwards, or give places as this one does.
#[derive(Clone, Copy, PartialEq, Eq)]
pub struct Reader {
    pub at: usize,
    pub end: usize,
    pub more: bool,
}

// A line stands from `from` to `to`, without its line end. A line that does not fit the buffer is dropped as `Long`. `Read`: go on.
#[derive(Clone, Copy, PartialEq, Eq)]
pub enum Found {
    Line { from: usize, to: usize },
    Long,
    Read,
    End,
}

// Reads behind the first `kept` bytes: how many came, 0 at the end. A read that fails ends the input too, and is told on the output.
fn read_on<R: Read, W: Write>(input: &mut R, output: &mut W, buf: &mut [u8], kept: usize) -> usize
    requires { kept ≤ length buf.old }
    ensures { (kept + result ≤ length buf.new) × (take kept buf.new ≡ take kept buf.old) }
{
    match input.read(&mut buf[kept..]) {
        Ok(n) => n,
        Err(_) => {
            let _ = output.write_all(b"the input could not be read to its end\n");
            0
        }
    }
}

impl Reader {
    pub fn new() -> Self
        ensures { (result ≡ standing 0 0 true) × Inside 0 result }
    {
        Reader {
            at: 0,
            end: 0,
            more: true,
        }
    }

    // Reads once, behind a line that is not whole.
    fn fill<R: Read, W: Write>(&mut self, input: &mut R, output: &mut W, buf: &mut [u8]) -> Found
        requires { Inside (length buf.old) self.old × (fed (pending buf.old self.old) ≡ false) }
        ensures { Given (length buf.new) (step result self.new) × Finds (pending buf.old self.old) true buf.new (step result self.new) }
    {
        let kept = self.end - self.at;
        if buf.len() <= kept {
            *self = Reader::new();
            return Found::Long;
        }
        buf.copy_within(self.at..self.end, 0);
        let n = read_on(input, output, buf, kept);
        *self = Reader {
            at: 0,
            end: kept + n,
            more: 0 < n,
        };
        Found::Read
    }

    // The input's end: a last line may lack its line end.
    fn last(&mut self, buf: &[u8]) -> Found
        requires { Inside (length buf.now) self.old × (fed (pending buf.now self.old) ≡ false) }
        ensures { Given self.old.end (step result self.new) × Finds (pending buf.now self.old) false buf.now (step result self.new) }
    {
        let from = self.at;
        let to = self.end;
        *self = Reader {
            at: to,
            end: to,
            more: false,
        };
        if from == to {
            Found::End
        } else {
            Found::Line { from, to }
        }
    }

    pub fn next<R: Read, W: Write>(
        &mut self,
        input: &mut R,
        output: &mut W,
        buf: &mut [u8],
    ) -> Found
        requires { Inside (length buf.old) self.old }
        ensures { Given (length buf.new) (step result self.new) × Finds (pending buf.old self.old) self.old.more buf.new (step result self.new) }
    {
        let from = self.at;
        if let Some(size) = memchr::memchr(b'\n', &buf[from..self.end]) {
            let to = from + size;
            self.at = to + 1;
            return Found::Line { from, to };
        }
        if self.more {
            self.fill(input, output, buf)
        } else {
            self.last(buf)
        }
    }
}
