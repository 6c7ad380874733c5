// The letters, and how many bytes each takes and gives: oracle/README.md, "The parts".
ghost use Rattle.std.specs.Prelude.{◌≤◌};

use lines::line::Shape;
use numbers::Refusal;

#[derive(Clone, Copy, PartialEq, Eq)]
pub enum Letter {
    Bits,
    Timer,
    Press,
    Release,
    Poll,
    Pad,
    Write,
    Read,
    Interrupts,
}

// The letters in the order of the report.
pub const NAMES: [u8; 9] = *b"BTPLUFWRI";

impl TryFrom<u8> for Letter {
    type Error = Refusal;

    fn try_from(byte: u8) -> Result<Self, Refusal> {
        match byte {
            b'B' => Ok(Letter::Bits),
            b'T' => Ok(Letter::Timer),
            b'P' => Ok(Letter::Press),
            b'L' => Ok(Letter::Release),
            b'U' => Ok(Letter::Poll),
            b'F' => Ok(Letter::Pad),
            b'W' => Ok(Letter::Write),
            b'R' => Ok(Letter::Read),
            b'I' => Ok(Letter::Interrupts),
            _ => Err(Refusal::Outside),
        }
    }
}

impl Letter {
    pub fn shape(self) -> Shape
        ensures { (result.takes ≤ 12) × (result.gives ≤ 12) }
    {
        let (takes, gives) = match self {
            Letter::Bits | Letter::Pad => (2, 3),
            Letter::Interrupts => (3, 3),
            Letter::Press | Letter::Release => (4, 3),
            Letter::Poll => (6, 6),
            Letter::Read => (11, 1),
            Letter::Timer => (12, 8),
            Letter::Write => (12, 11),
        };
        Shape { takes, gives }
    }
}
