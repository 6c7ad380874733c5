// The line that answers, with its line feed: letter and index as they were asked (no index for T), then the byte or the call's number; else `?`.
ghost use Rattle.std.specs.Prelude.{◌≡◌, ◌<◌, ◌≤◌, length};
ghost use Rattle.commands.specs.Walk.{Shows, read_text, write_text, update_text, strange_text};

use crate::bytes::Bytes;
use lines::line::pair;

// Digit by digit, and not by `write!`: this promises the text only where it answers `Ok`, and `Shows` does so always.
pub type Text = Bytes<10>;

fn text(bytes: &[u8]) -> Text
    requires { length bytes.now ≤ 10 }
    ensures { Shows result bytes.now }
{
    let mut text = Text::new();
    text.put(bytes);
    text
}

pub fn read(index: u16, value: u8) -> Text
    ensures { Shows result (read_text index value) }
{
    let [high, low] = index.to_be_bytes();
    let [a, b] = pair(high);
    let [c, d] = pair(low);
    let [e, f] = pair(value);
    text(&[b'R', b' ', a, b, c, d, b' ', e, f, b'\n'])
}

pub fn write(index: u16, number: u8) -> Text
    requires { number < 10 }
    ensures { Shows result (write_text index number) }
{
    let [high, low] = index.to_be_bytes();
    let [a, b] = pair(high);
    let [c, d] = pair(low);
    text(&[b'W', b' ', a, b, c, d, b' ', b'0' + number, b'\n'])
}

pub fn update(number: u8) -> Text
    requires { number < 10 }
    ensures { Shows result (update_text number) }
{
    text(&[b'T', b' ', b'0' + number, b'\n'])
}

pub fn strange() -> Text
    ensures { Shows result strange_text }
{
    text(b"?\n")
}
