// What is shown of the rows that changed, in parts that fit a lent buffer. A row is 16 bytes.
ghost use Rattle.std.specs.Prelude.{◌≡◌, ℕ, ◌+◌, ◌-◌, ◌≤◌, ◌<◌, List, length};
ghost use Rattle.recover_text.specs.Text.{numbered};
ghost use Rattle.recover_text.specs.Page.{Puts};
ghost use Rattle.recover_text.specs.Rows.{Rows, Shows, by_row, row_bytes, row_count, address_limit};

use crate::put::Page;

// The bytes of a row.
pub const ROW: usize = 16;

// The text of the rows up to, not including, `next` stands in the first `len` bytes of a lent buffer. `Shows` names both fields, and what the buffer has behind the text.
#[derive(Clone, Copy)]
pub struct Part {
    pub next: usize,
    pub len: usize,
}

// A save before and after: as long as one another, of whole rows, whose addresses have five digits at most.
#[derive(Clone, Copy)]
pub struct Saves<'a> {
    pub old: &'a [u8],
    pub new: &'a [u8],
    ghost pair: { Rows old.now new.now 0 },
}

// A way to show a row.
pub trait Lines {
    ghost lines: { ℕ → List ℕ → List ℕ → List ℕ };

    ghost ROOM: { ℕ };

    // The most bytes that it has of a row.
    const ROOM: usize;

    // What it shows of the row at an address. `at, old, new` stand one by one, here and in what a row calls, as `lines` takes them so. A row is a slice of a save, as
    // `by_row` cuts it: that it has 16 bytes is proved at one place, in `fill`.
    fn row(page: &mut Page<'_>, at: usize, old: &[u8], new: &[u8])
        requires { (at + row_bytes ≤ address_limit) × (length old.now ≡ row_bytes) × (length new.now ≡ row_bytes) × (page.old.end + ROOM ≤ length page.old.out.now) }
        ensures { Puts page.old (lines at old.now new.now) page.new };
}

// The rows from row `from` on, as many as there is room for: the row behind them.
fn fill<L: Lines>(page: &mut Page<'_>, saves: Saves<'_>, from: usize) -> usize
    requires { (from ≤ row_count saves.old.now) × (page.old.end ≤ length page.old.out.now) }
    ensures text { Puts page.old (numbered (by_row L.lines saves.entry.old.now saves.entry.new.now) from (result - from)) page.new }
    ensures rows { (from ≤ result) × (result ≤ row_count saves.entry.old.now) }
    ensures full { page.new.end + L.ROOM ≤ length page.new.out.now → result ≡ row_count saves.entry.old.now }
{
    let count = saves.old.len() / ROW;
    for k in from..count {
        if page.out.len() - page.end < L::ROOM {
            return k;
        }
        let at = k * ROW;
        let end = at + ROW;
        L::row(page, at, &saves.old[at..end], &saves.new[at..end]);
    }
    count
}

// What is shown of the rows from row `from` on: of as many as there is room for.
pub fn show<L: Lines>(saves: Saves<'_>, from: usize, out: &mut [u8]) -> Part
    requires { from ≤ row_count saves.old.now }
    ensures { Shows (by_row L.lines) L.ROOM saves.entry.old.now saves.entry.new.now from out.old out.new result }
{
    let mut page = Page::new(out);
    let next = fill::<L>(&mut page, saves, from);
    Part {
        next,
        len: page.end,
    }
}
