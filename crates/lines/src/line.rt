// A line taken apart: a letter, a space, the input's bytes, a space, the answer's bytes. Each byte is two uppercase hex digits; no bytes are "-".
ghost use Rattle.std.specs.Prelude.{◌≡◌, ◌+◌, ◌*◌, ◌<◌, ◌≤◌, length, ◌==◌};
ghost use Rattle.lines.specs.Flag.{flag_of};
ghost use Rattle.lines.specs.Text.{digit_of, digit_in, hex_digit, byte_text, byte_of, bytes_in, is_field, width_of, puts, parsed, line_of, Holds};

use numbers::Refusal;

// What stands between the fields of a line.
const SPACE: u8 = b' ';

// A digit's number. By hand, as `to_digit` of std takes lowercase ones too.
#[tactic(auto, unfolding(crate::specs::Text::digit_of, crate::specs::Text::digit_in))]
pub fn digit(c: u8) -> Option<u8>
    ensures { result ≡ digit_in c }
{
    match c {
        b'0'..=b'9' => Some(c - b'0'),
        b'A'..=b'F' => Some(c - b'A' + 10),
        _ => None,
    }
}

// The digit of a number below 16. By hand, as `from_digit` of std gives lowercase ones, and an `Option`.
#[tactic(auto, unfolding(crate::specs::Text::hex_digit))]
pub fn hex_digit(n: u8) -> u8
    requires { n < 16 }
    ensures { result ≡ hex_digit n }
{
    if n < 10 { b'0' + n } else { b'A' + (n - 10) }
}

// A byte in two digits.
pub fn pair(b: u8) -> [u8; 2]
    ensures { result ≡ byte_text b }
{
    [hex_digit(b / 16), hex_digit(b % 16)]
}

// The byte of two digits.
#[tactic(auto, unfolding(crate::specs::Text::digit_in, crate::specs::Text::byte_of))]
fn byte(high: u8, low: u8) -> Option<u8>
    ensures { result ≡ byte_of (digit_of high) (digit_of low) }
{
    Some(digit(high)? * 16 + digit(low)?)
}

// Puts the bytes that the text begins with into `out`, up to the first that has a wrong digit; false where there is one.
fn decode(s: &[u8], out: &mut [u8]) -> bool
    requires { length out.old * 2 ≤ length s.now }
    ensures { (result ≡ (length (bytes_in (length out.old) s.now) == length out.old)) × (out.new ≡ puts (bytes_in (length out.old) s.now) out.old) }
{
    for (i, b) in out.iter_mut().enumerate() {
        let Some(byte) = byte(s[i * 2], s[i * 2 + 1]) else {
            return false;
        };
        *b = byte;
    }
    true
}

// How many characters n bytes are: "-" for none.
#[tactic(auto, unfolding(crate::specs::Text::width_of))]
fn width(n: usize) -> usize
    requires { n ≤ 64 }
    ensures { (result ≡ width_of n) × ((1 ≤ result) × ((n * 2 ≤ result) × (result ≤ 128))) }
{
    if n == 0 { 1 } else { n * 2 }
}

// The n bytes of the field that a text begins with.
#[tactic(auto, unfolding(crate::specs::Text::is_field, crate::specs::Text::bytes_in))]
fn field(s: &[u8], n: usize, out: &mut [u8]) -> bool
    requires { (0 < length s.now) × ((n * 2 ≤ length s.now) × Holds n out.old) }
    ensures { (result ≡ is_field n s.now) × (out.new ≡ puts (bytes_in n s.now) out.old) }
{
    if n == 0 {
        return s[0] == b'-';
    }
    decode(s, &mut out[..n])
}

// A flag among the input's bytes.
#[tactic(auto, unfolding(crate::specs::Flag::flag_of))]
pub fn flag(byte: u8) -> Result<bool, Refusal>
    ensures { result ≡ flag_of byte }
{
    match byte {
        0 => Ok(false),
        1 => Ok(true),
        _ => Err(Refusal::Outside),
    }
}

// How many bytes a line's input has, and its answer.
#[derive(Clone, Copy, PartialEq, Eq)]
pub struct Shape {
    pub takes: usize,
    pub gives: usize,
}

// Input and answer of a line, after its letter; false where it has another form. They are put into buffers that are lent, and no `Option` of them is given:
// `line_of` says what both hold where the line has another form too.
#[tactic(auto, unfolding(crate::specs::Text::line_of, crate::specs::Text::all_fields_in))]
pub fn parse(s: &[u8], shape: Shape, given: &mut [u8], answer: &mut [u8]) -> bool
    requires { Holds shape.takes given.old × Holds shape.gives answer.old }
    ensures { parsed result given.new answer.new ≡ line_of shape.takes shape.gives s.now given.old answer.old }
{
    let middle = 2 + width(shape.takes);
    if s.len() != middle + 1 + width(shape.gives) {
        return false;
    }
    if s[1] != SPACE {
        return false;
    }
    if s[middle] != SPACE {
        return false;
    }
    if !field(&s[2..], shape.takes, given) {
        return false;
    }
    field(&s[middle + 1..], shape.gives, answer)
}
