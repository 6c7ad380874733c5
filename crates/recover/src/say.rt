// What is printed: the lines of crate recover_messages, each written whole.
ghost use Rattle.std.specs.Prelude.{◌≡◌, ◌+◌, ◌≤◌, length, take};
ghost use Rattle.io.specs.Counts.{IsPrefixLen};
ghost use Rattle.recover_messages.specs.Journal.{journal_limit};
ghost use Rattle.recover_messages.specs.Messages.{room};

use crate::files;
use crate::journal::{Log, Scanned};
use numbers::Refusal;
use recover_messages::journal::Scan;
use recover_messages::message;
use recover_messages::message::Why;
use recover_text::put::Page;
use std::io::{Error, Read};
use std::rt::{Env, Runtime};

// A line's room: the longest name and the most that is said beside one.
const LINE: usize = 4400;

// What the system says of an error, without its number.
fn words_of(text: &str) -> &str {
    match text.split_once(" (os error ") {
        Some((front, _)) => front,
        None => text,
    }
}

// Tells standard error what failed, and what the system says of it.
pub fn fail(rt: &impl Runtime, what: &str, error: Error) {
    let Ok(text) = format!(in rt.alloc(); "{error}") else {
        let _ = rt.eprintln(format_args!("{what}: {error}"));
        return;
    };
    let words = words_of(text.as_str());
    let _ = rt.eprintln(format_args!("{what}: {words}"));
}

// The program ends here: it is told why, or what it tells could not be printed.
#[derive(Clone, Copy, Debug, PartialEq, Eq)]
pub struct Ended;

// What recovery refuses is told where it is asked.
impl From<Refusal> for Ended {
    fn from(_: Refusal) -> Ended {
        Ended
    }
}

pub fn print(rt: &impl Runtime, text: &[u8]) -> Result<(), Ended> {
    rt.write_all(text).map_err(|e| {
        fail(rt, "recover: standard output", e);
        Ended
    })
}

// A byte of a name as it is shown: a question mark stands for a control character, so that a name is on one line, whatever it is.
fn plain_byte(b: u8) -> u8 {
    if b.is_ascii_control() { b'?' } else { b }
}

// The bytes of argument i; none, where there is no such argument or no path is as long. An empty argument is refused alike, so there is no Option.
pub fn argument(rt: &impl Env, i: usize, out: &mut [u8]) -> usize
    ensures { IsPrefixLen result out.new }
{
    rt.arg(i, out).unwrap_or(0)
}

// The name of the file that argument i names, as it is shown.
fn name_at(rt: &impl Env, i: usize, out: &mut [u8]) -> usize
    ensures { IsPrefixLen result out.new }
{
    let n = argument(rt, i, out);
    for b in out[..n].iter_mut() {
        *b = plain_byte(*b);
    }
    n
}

pub fn usage(rt: &impl Runtime) {
    let _ = rt.eprint("usage: recover [--replace] [--speak] [--old | --bare] SAVE LOG [NEW]\n");
    let _ = rt.write_all(b"failed: usage\n");
}

// One message on a page of its own, beside the name of the file that argument i names.
fn tell<F: FnOnce(&mut Page<'_>, &[u8])>(
    rt: &impl Runtime,
    i: usize,
    message: F,
) -> Result<(), Ended>
    requires fits { (p : _) (n : _) → p.now.end + length n.now + room ≤ length p.now.out.now → F.pre message p n }
    requires ends { (p : _) (n : _) (q : _) → F.post message p n tt q → q.now.end ≤ length q.now.out.now }
{
    let mut name = io::buffer();
    let n = name_at(rt, i, &mut name);
    let mut line = [0u8; LINE];
    let mut page = Page::new(&mut line);
    message(&mut page, &name[..n]);
    let m = page.end;
    print(rt, &page.out[..m])
}

// A failure of the work on the file that argument i names, and its size. `why, i, len` are said at once and kept nowhere: a struct would be made for each call.
pub fn failed(rt: &impl Runtime, why: Why, i: usize, len: usize) -> Ended {
    let _ = tell(
        rt,
        i,
        |page, name| message::failed(page, why, name, len as u64),
    );
    Ended
}

// The same after a call that failed: what the system says of it goes to standard error.
pub fn failed_call(rt: &impl Runtime, error: Error, why: Why, i: usize, len: usize) -> Ended {
    fail(rt, "recover", error);
    failed(rt, why, i, len)
}

// Whether the file that argument i names ends where it is read now. If not, it is told.
pub fn ends(rt: &impl Runtime, file: &mut impl Read, i: usize, len: usize) -> Result<(), Ended> {
    let mut one = [0u8; 1];
    match file.read(&mut one) {
        Ok(0) => Ok(()),
        Ok(_) => Err(failed(rt, Why::Changed, i, len)),
        Err(e) => Err(failed_call(rt, e, Why::Unread, i, len)),
    }
}

pub fn note(rt: &impl Runtime, why: Why, i: usize, len: usize) -> Result<(), Ended> {
    tell(
        rt,
        i,
        |page, name| message::note(page, why, name, len as u64),
    )
}

pub fn wrong_length(rt: &impl Runtime, i: usize, len: usize) -> Ended {
    let _ = tell(
        rt,
        i,
        |page, name| message::wrong_length(page, name, len as u64),
    );
    Ended
}

// What is left out at the end of the log; all of it, where its mark is torn and nothing but zeros is behind.
pub fn end(rt: &impl Runtime, read: Scanned) -> Result<(), Ended> {
    let log = read.log;
    let journal = read.journal();
    tell(rt, log.name, |page, name| {
        if log.torn && journal.scan.end == 0 {
            message::torn_mark(page, name, log.len as u64);
        } else {
            message::end(page, name, log.before as usize, journal);
        }
    })
}

// The first damaged record of a part of the log, for a save of `ram` bytes; s is the scan before the part.
pub fn damage(rt: &impl Runtime, log: Log, s: Scan, part: &[u8], ram: usize) -> Ended
    requires { s.len ≤ journal_limit }
{
    let _ = tell(rt, log.name, |page, name| {
        message::damage(page, name, log.form, log.len, s, part, ram)
    });
    Ended
}

// The last line, where NEW is written with so many bytes.
pub fn written(rt: &impl Runtime, read: Scanned, i: usize, len: usize) -> Result<(), Ended> {
    let journal = read.journal();
    tell(
        rt,
        i,
        |page, name| message::written(page, journal, name, len as u64),
    )
}

// The last line, where no NEW is named, beside no name. `tell` and this over one frame was tried: the frame's `ends` got no proof for `tell`'s closure, which calls
// `message`.
pub fn shown(rt: &impl Runtime, read: Scanned) -> Result<(), Ended> {
    let mut line = [0u8; LINE];
    let mut page = Page::new(&mut line);
    message::shown(&mut page, read.journal());
    let m = page.end;
    print(rt, &line[..m])
}
