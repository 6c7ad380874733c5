// What is printed waits in a fixed room until it is written.
ghost use Rattle.std.specs.Prelude.{◌≡◌, ◌+◌, ◌≤◌, ◌++◌, [], length};
ghost use Rattle.commands.specs.Walk.{text_of};

use commands::bytes::Bytes;
use commands::text::Text;
use std::io::Write;

// The room that the walk has.
pub type Out = Bytes<65536>;

// Answers could not be written.
#[derive(Clone, Copy, PartialEq, Eq)]
pub struct Lost;

// Writes what waits. A failed write is told on standard error, and what could not be written is lost.
pub fn flush<W: Write, E: Write, const N: usize>(
    output: &mut W,
    errors: &mut E,
    out: &mut Bytes<N>,
) -> Result<(), Lost>
    ensures { text_of out.new ≡ [] }
{
    let written = output.write_all(out.as_slice());
    out.clear();
    if written.is_ok() {
        return Ok(());
    }
    let _ = errors.write_all(b"the answers could not be written\n");
    Err(Lost)
}

// Puts a text behind what waits.
pub fn put<const N: usize>(out: &mut Bytes<N>, text: &Text)
    requires { (length (text_of out.old) + 10 ≤ N) × (length (text_of text.now) ≤ 10) }
    ensures { text_of out.new ≡ text_of out.old ++ text_of text.now }
{
    out.put(text.as_slice());
}
