// The counts, and their report.
ghost use Rattle.std.specs.Prelude.{◌≡◌, ◌%◌, ◌<◌};
ghost use Rattle.lines.specs.Tally as counts;

use std::io;
use std::io::Write;

#[derive(Clone, Copy, PartialEq, Eq)]
pub struct Count {
    pub answers: u64,
    pub differ: u64,
}

// A letter counts at its code modulo 64, where no two letters meet.
#[derive(Clone, Copy)]
pub struct Tally {
    pub counts: [Count; 64],
    // Lines of no known form.
    pub unknown: u64,
}

fn place(letter: u8) -> usize
    ensures { (result ≡ letter % 64) × (result < 64) }
{
    usize::from(letter % 64)
}

// One more. A count of 64 bits never comes round.
fn more(n: u64) -> u64
    ensures { result ≡ counts.more n }
{
    n.wrapping_add(1)
}

// The line of a letter that occurred.
fn report_letter<W: Write>(output: &mut W, name: u8, count: Count) -> io::Result<()> {
    let Count { answers, differ } = count;
    if answers == 0 {
        return Ok(());
    }
    output.write_all(&[name])?;
    writeln!(output, " {answers} answers, {differ} differ")
}

// The line that says that not every line was compared.
fn report_unknown<W: Write>(output: &mut W, unknown: u64) -> io::Result<()> {
    if unknown == 0 {
        return Ok(());
    }
    writeln!(output, "? {unknown} lines are of no known form")
}

impl Count {
    fn counted(self, same: bool) -> Self
        ensures { result ≡ counts.count_in self same }
    {
        Count {
            answers: more(self.answers),
            differ: if same { self.differ } else { more(self.differ) },
        }
    }
}

impl Tally {
    pub fn new() -> Self
        ensures { result ≡ counts.none }
    {
        Tally {
            counts: [Count {
                answers: 0,
                differ: 0,
            }; 64],
            unknown: 0,
        }
    }

    pub fn counted(self, letter: u8, same: bool) -> Self
        ensures { result ≡ counts.counted_in self letter same }
    {
        let at = place(letter);
        let mut next = self;
        next.counts[at] = self.counts[at].counted(same);
        next
    }

    pub fn strange(self) -> Self
        ensures { result ≡ counts.strange_in self }
    {
        Tally {
            unknown: more(self.unknown),
            ..self
        }
    }

    // The letters in the order of `names`.
    pub fn report<W: Write>(self, output: &mut W, names: &[u8]) -> io::Result<()> {
        for name in names {
            report_letter(output, *name, self.counts[place(*name)])?;
        }
        report_unknown(output, self.unknown)
    }
}
