// The rows that changed, to be heard: `0010: LUNA becomes STELLA`, and byte by byte what no text says, `001A: 07 becomes 09`.
ghost use Rattle.std.specs.Prelude.{◌≡◌, ◌+◌, ◌≤◌, ◌<◌, length};
ghost use Rattle.recover_text.specs.Text.{Put};
ghost use Rattle.recover_text.specs.Page.{Puts};
ghost use Rattle.recover_text.specs.Rows.{row_bytes, address_limit};
ghost use Rattle.recover_text.specs.Speak.{in_word, step_text, step_place, words, or_nothing, place, text_line, byte_line, tells, byte_heard, byte_lines, heard, heard_room, HeardLaw};
ghost use Rattle.recover_text.specs.Place.{place_number};

use crate::parts::Lines;
use crate::put::{Page, pair};

// Where a byte of a row stands: before the first word, in a word, behind one.
#[derive(Clone, Copy)]
pub enum Place {
    Before,
    Inside,
    Behind,
}

// Whether a byte is said as it is: a character that ASCII prints, and no space.
fn in_word(b: u8) -> bool
    ensures { result ≡ in_word b }
{
    33 <= b && b < 127
}

// One byte of a text, and where the next one stands. A gap of any bytes between two words is one space.
fn step(page: &mut Page<'_>, place: Place, b: u8) -> Place
    requires { page.old.end + 2 ≤ length page.old.out.now }
    ensures { Puts page.old (step_text (place_number place) b) page.new × (place_number result ≡ step_place (place_number place) b) }
{
    if !in_word(b) {
        return match place {
            Place::Before => Place::Before,
            Place::Inside | Place::Behind => Place::Behind,
        };
    }
    match place {
        Place::Before | Place::Inside => page.byte(b),
        Place::Behind => page.text(&[b' ', b]),
    }
    Place::Inside
}

// The text of a row: its words, with one space between two. It lies in a lent array, as nothing is on the heap, and ends at the place that `Put` names.
fn words(out: &mut [u8; 32], row: &[u8]) -> usize
    requires { length row.now ≡ row_bytes }
    ensures { Put out.old 0 (words 0 row.now) out.new result }
{
    let mut page = Page::new(out);
    let mut place = Place::Before;
    for b in row {
        place = step(&mut page, place, *b);
    }
    page.end
}

// A text, or the word for none.
fn or_nothing(page: &mut Page<'_>, text: &[u8])
    requires { (page.old.end + 7 ≤ length page.old.out.now) × (page.old.end + length text.now ≤ length page.old.out.now) }
    ensures { Puts page.old (or_nothing text.now) page.new }
{
    if text.is_empty() {
        page.text(b"nothing");
    } else {
        page.text(text);
    }
}

// An address and a colon.
fn head(page: &mut Page<'_>, at: usize)
    requires { (at < address_limit) × (page.old.end + 7 ≤ length page.old.out.now) }
    ensures { Puts page.old (place at) page.new × (page.new.end ≤ page.old.end + 7) }
{
    page.address(at);
    page.text(b": ");
}

// The line of a text that changed.
fn text_line(page: &mut Page<'_>, at: usize, old: &[u8], new: &[u8])
    requires { (at < address_limit) × (length old.now ≤ 32) × (length new.now ≤ 32) × (page.old.end + 81 ≤ length page.old.out.now) }
    ensures { Puts page.old (text_line at old.now new.now) page.new }
{
    head(page, at);
    or_nothing(page, old);
    page.text(b" becomes ");
    or_nothing(page, new);
    page.byte(b'\n');
}

// The line of a byte that changed.
fn byte_line(page: &mut Page<'_>, at: usize, old: u8, new: u8)
    requires { (at < address_limit) × (page.old.end + 21 ≤ length page.old.out.now) }
    ensures { Puts page.old (byte_line at old new) page.new }
{
    head(page, at);
    page.text(&pair(old));
    page.text(b" becomes ");
    page.text(&pair(new));
    page.byte(b'\n');
}

// Whether a byte has a line of its own: where it changed and no text says so.
fn tells(every: bool, old: u8, new: u8) -> bool
    ensures { result ≡ tells every old new }
{
    old != new && (every || !in_word(old) && !in_word(new))
}

fn byte_heard(page: &mut Page<'_>, at: usize, every: bool, old: u8, new: u8)
    requires { (at < address_limit) × (page.old.end + 21 ≤ length page.old.out.now) }
    ensures { Puts page.old (byte_heard every at old new) page.new }
{
    if tells(every, old, new) {
        byte_line(page, at, old, new);
    }
}

// The bytes of a row, one by one.
fn byte_lines(page: &mut Page<'_>, at: usize, every: bool, old: &[u8], new: &[u8])
    requires { (at + row_bytes ≤ address_limit) × (length old.now ≡ row_bytes) × (length new.now ≡ row_bytes) × (page.old.end + 336 ≤ length page.old.out.now) }
    ensures { Puts page.old (byte_lines every at old.now new.now) page.new }
{
    for (i, (before, now)) in old.iter().zip(new).enumerate() {
        byte_heard(page, at + i, every, *before, *now);
    }
}

// The rows that changed, to be heard.
pub struct Heard;

impl Lines for Heard {
    ghost lines = { heard };

    ghost ROOM = { heard_room };

    // A line of text, and one of each byte.
    const ROOM: usize = 417;

    // Its text, if that changed, and the bytes that it does not say.
    fn row(page: &mut Page<'_>, at: usize, old: &[u8], new: &[u8]) {
        let mut before = [0u8; 32];
        let mut after = [0u8; 32];
        let n = words(&mut before, old);
        let m = words(&mut after, new);
        let every = before[..n] == after[..m];
        if !every {
            text_line(page, at, &before[..n], &after[..m]);
        }
        byte_lines(page, at, every, old, new);
    }
}

// The law of specs/Speak.antt, as a contract: its proof hands it over.
pub fn laws_hold()
    ensures { HeardLaw }
{}
