// Text put into a lent buffer, one piece behind the other.
ghost use Rattle.std.specs.Prelude.{[], ◌∷◌, ◌≡◌, ◌+◌, ◌*◌, ◌≤◌, ◌<◌, length};
ghost use Rattle.lines.specs.Text.{byte_text, index_text};
ghost use Rattle.recover_text.specs.Text.{decimal, counted, spaced, address_text, shown, hexes, shown_all};
ghost use Rattle.recover_text.specs.Page.{Puts};
ghost use Rattle.recover_text.specs.Rows.{address_limit};

use lines::line::hex_digit;
pub use lines::line::pair;

// A lent buffer, and where the text in it ends: the next piece begins there.
#[derive(Drop)]
pub struct Page<'a> {
    pub out: &'a mut [u8],
    pub end: usize,
}

impl<'a> Page<'a> {
    // With no text yet.
    pub fn new(out: &'a mut [u8]) -> Page<'a>
        ensures same_reference { result.out.ghost_name ≡ out.entry.ghost_name }
        ensures empty { (result.out.now ≡ out.old) × (result.end ≡ 0) }
    {
        Page { out, end: 0 }
    }

    pub fn byte(&mut self, b: u8)
        requires { self.old.end < length self.old.out.now }
        ensures { Puts self.old (b ∷ []) self.new }
    {
        self.out[self.end] = b;
        self.end += 1;
    }

    pub fn text(&mut self, s: &[u8])
        requires { self.old.end + length s.now ≤ length self.old.out.now }
        ensures { Puts self.old s.now self.new }
    {
        let end = self.end + s.len();
        self.out[self.end..end].copy_from_slice(s);
        self.end = end;
    }

    // A number in decimal.
    pub fn decimal(&mut self, n: u64)
        requires { self.old.end + 20 ≤ length self.old.out.now }
        ensures { Puts self.old (decimal n) self.new }
    {
        let mut digits = [0u8; 20];
        let k = io::decimal(n, &mut digits);
        self.text(&digits[..k]);
    }

    // A number and what it counts, in the plural unless it is 1.
    pub fn counted(&mut self, n: u64, noun: &[u8])
        requires { self.old.end + 22 + length noun.now ≤ length self.old.out.now }
        ensures { Puts self.old (counted n noun.now) self.new }
    {
        self.decimal(n);
        self.byte(b' ');
        self.text(noun);
        if n != 1 {
            self.byte(b's');
        }
    }

    // An address in four hex digits, in five where it needs them. That it has no more is asked of a number, here and in what shows a row, as the definitions take one:
    // a type of addresses would be made anew at each row and byte (`at + i`).
    pub fn address(&mut self, at: usize)
        requires { (at < address_limit) × (self.old.end + 5 ≤ length self.old.out.now) }
        ensures { Puts self.old (address_text at) self.new × (self.new.end ≤ self.old.end + 5) }
    {
        if 65536 <= at {
            self.byte(hex_digit((at / 65536) as u8));
        }
        self.text(&digits(at % 65536));
    }

    // Bytes in hex, each behind a space.
    pub fn hexes(&mut self, s: &[u8])
        requires { self.old.end + 3 * length s.now ≤ length self.old.out.now }
        ensures { Puts self.old (hexes s.now) self.new }
    {
        for b in s {
            self.text(&spaced(*b));
        }
    }

    // Bytes as text.
    pub fn shown_all(&mut self, s: &[u8])
        requires { self.old.end + length s.now ≤ length self.old.out.now }
        ensures { Puts self.old (shown_all s.now) self.new }
    {
        for b in s {
            self.byte(shown(*b));
        }
    }
}

// A byte in two hex digits, behind a space.
fn spaced(b: u8) -> [u8; 3]
    ensures { result ≡ spaced b }
{
    let [high, low] = pair(b);
    [b' ', high, low]
}

// The last four hex digits of an address.
fn digits(at: usize) -> [u8; 4]
    requires { at < 65536 }
    ensures { result ≡ index_text at }
{
    let [a, b] = pair((at / 256) as u8);
    let [c, d] = pair((at % 256) as u8);
    [a, b, c, d]
}

// A byte as text.
fn shown(b: u8) -> u8
    ensures { result ≡ shown b }
{
    if 32 <= b && b < 127 { b } else { b'.' }
}
