// The rows that changed, in hex: of each its line before, after `-`, and its line now, after `+`.
ghost use Rattle.std.specs.Prelude.{◌≡◌, ◌+◌, ◌≤◌, ◌<◌, length};
ghost use Rattle.recover_text.specs.Page.{Puts};
ghost use Rattle.recover_text.specs.Rows.{head, row_line, changed_lines, row_bytes, row_room, address_limit};
ghost use Rattle.recover_text.specs.Rows.{PartsLaw, RowsLaw};

use crate::parts::Lines;
use crate::put::Page;

// A line's sign and address.
fn head(page: &mut Page<'_>, sign: u8, at: usize)
    requires { (at < address_limit) × (page.old.end + 8 ≤ length page.old.out.now) }
    ensures { Puts page.old (head sign at) page.new × (page.new.end ≤ page.old.end + 8) }
{
    page.text(&[sign, b' ']);
    page.address(at);
    page.byte(b' ');
}

// A row's line.
fn line(page: &mut Page<'_>, sign: u8, at: usize, row: &[u8])
    requires { (at < address_limit) × (length row.now ≡ row_bytes) × (page.old.end + 75 ≤ length page.old.out.now) }
    ensures { Puts page.old (row_line sign at row.now) page.new × (page.new.end ≤ page.old.end + 75) }
{
    head(page, sign, at);
    page.hexes(row);
    page.text(b"  ");
    page.shown_all(row);
    page.byte(b'\n');
}

// The rows that changed, in hex.
pub struct Hex;

impl Lines for Hex {
    ghost lines = { changed_lines };

    ghost ROOM = { row_room };

    // Two lines.
    const ROOM: usize = 150;

    // Its lines, if it changed.
    fn row(page: &mut Page<'_>, at: usize, old: &[u8], new: &[u8]) {
        if old != new {
            line(page, b'-', at, old);
            line(page, b'+', at, new);
        }
    }
}

// The laws of specs/Rows.antt, as a contract: its proof hands them over.
pub fn laws_hold()
    ensures { PartsLaw × RowsLaw }
{}
