// What a line asks for, without its line end: `R index`, `W index value`, `T cycles`.
ghost use Rattle.std.specs.Prelude.{◌≡◌, ◌≤◌};
ghost use Rattle.commands.specs.Walk.{number_from, Within, read_line, write_line, update_line, command_of};

use lines::line::digit;

#[derive(Clone, Copy, PartialEq, Eq)]
pub enum Command {
    Read(u16),
    Write(u16, u8),
    Update(u32),
}

// The number that digits write in a base, if they do and it is not above the limit. By hand, as std's `from_str_radix` takes a sign and lowercase
// digits.
fn digits(s: &[u8], base: u64, limit: u64) -> Option<u64>
    requires { (base ≤ 16) × (limit ≤ 4294967295) }
    ensures { (result ≡ number_from base limit 0 s.now) × Within limit result }
{
    let mut n = 0;
    for c in s {
        let d = u64::from(digit(*c)?);
        if base <= d {
            return None;
        }
        n = n * base + d;
        if limit < n {
            return None;
        }
    }
    Some(n)
}

#[tactic(auto, unfolding(crate::specs::Walk::read_line))]
fn read(s: &[u8]) -> Option<Command>
    ensures { result ≡ read_line s.now }
{
    if s.len() != 6 {
        return None;
    }
    let index = digits(&s[2..6], 16, 65535)?;
    Some(Command::Read(index as u16))
}

#[tactic(auto, unfolding(crate::specs::Walk::write_line))]
fn write(s: &[u8]) -> Option<Command>
    ensures { result ≡ write_line s.now }
{
    if s.len() != 9 {
        return None;
    }
    if s[6] != b' ' {
        return None;
    }
    let index = digits(&s[2..6], 16, 65535)?;
    let value = digits(&s[7..9], 16, 255)?;
    Some(Command::Write(index as u16, value as u8))
}

#[tactic(auto, unfolding(crate::specs::Walk::update_line))]
fn update(s: &[u8]) -> Option<Command>
    ensures { result ≡ update_line s.now }
{
    if s.len() < 3 {
        return None;
    }
    if 12 < s.len() {
        return None;
    }
    let cycles = digits(&s[2..], 10, 4294967295)?;
    Some(Command::Update(cycles as u32))
}

// None for a line of any other form.
#[tactic(auto, unfolding(crate::specs::Walk::command_of))]
pub fn parse(s: &[u8]) -> Option<Command>
    ensures { result ≡ command_of s.now }
{
    if s.len() < 2 {
        return None;
    }
    if s[1] != b' ' {
        return None;
    }
    match s[0] {
        b'R' => read(s),
        b'W' => write(s),
        b'T' => update(s),
        _ => None,
    }
}
