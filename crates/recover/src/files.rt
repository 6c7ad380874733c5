// Files: read in parts, and their names. The system takes a name as UTF-8.
ghost use Rattle.std.specs.Prelude.{◌≡◌, ◌≤◌, length, take, IfOk, OnErr, MatchResult, IsUtf8};
ghost use Rattle.io.specs.Counts.{IsPrefixLen};

use std::fs;
use std::fs::{File, Metadata};
use std::io::{Error, ErrorKind, Read, Result, Seek, SeekFrom};
use std::os::fd::{AsRawFd, IntoRawFd};
use std::rt::{Files, Runtime};

// No path has as many bytes.
pub const PATH_MAX: usize = 4096;

// Where a standard descriptor was closed at the start, no file that is opened later may get its number: what is printed would go there.
fn hold_one(rt: &impl Files<File = File>) {
    let Ok(file) = File::open(rt, "/dev/null") else {
        return;
    };
    if file.as_raw_fd() <= 2 {
        file.into_raw_fd();
    }
}

pub fn hold_standard(rt: &impl Files<File = File>) {
    for _ in 0..3 {
        hold_one(rt);
    }
}

// A name as the system takes it: that name, and refused only where it is not UTF-8.
pub fn text(name: &[u8]) -> Result<&str>
    ensures { MatchResult result (λ s. (s.now ≡ name.now) × IsUtf8 name.now) (λ e. IsUtf8 name.now → ⊥) }
{
    std::str::from_utf8(name).map_err(|_| Error::from(ErrorKind::InvalidFilename))
}

// To a place near the file's start.
pub fn again(file: &mut impl Seek, at: u16) -> Result<()> {
    let to = u64::from(at);
    if file.seek(SeekFrom::Start(to))? != to {
        return Err(Error::from(ErrorKind::NotSeekable));
    }
    Ok(())
}

// Reads on until `buf` is full or the file ends: how many bytes came, which `read_exact` does not tell of a file that ends before.
pub fn part(file: &mut impl Read, buf: &mut [u8]) -> Result<usize>
    ensures ok { IfOk result (λ n. IsPrefixLen n buf.new) }
    ensures err { OnErr result (length buf.new ≡ length buf.old) }
{
    let mut n = 0;
    while n < buf.len() {
        let k = file.read(&mut buf[n..])?;
        if k == 0 {
            return Ok(n);
        }
        n += k;
    }
    Ok(n)
}

// Puts `text` into `out` from `at` on, as much of it as fits, and gives the place behind it. Where `out` is full then, it may not have been all.
// A name has its length beside it, here and below, as nothing is on the heap: it lies in a buffer of fixed size that is lent.
pub fn put(out: &mut [u8], at: usize, text: &[u8]) -> usize
    requires { at ≤ length out.old }
    ensures { IsPrefixLen result out.new }
{
    let n = text.len().min(out.len() - at);
    out[at..at + n].copy_from_slice(&text[..n]);
    at + n
}

// Copies all of `from` to the start of `to`, and gives its length.
pub fn copied(from: &[u8], to: &mut [u8]) -> usize
    requires { length from.now ≤ length to.old }
    ensures { IsPrefixLen result to.new × (result ≡ length from.now) × (take result to.new ≡ from.now) }
{
    let n = from.len();
    to[..n].copy_from_slice(from);
    n
}

// The name of an open file, whatever spelling or links it was opened by, from the system's list of the open descriptors.
pub fn name_of(rt: &impl Runtime, file: &impl AsRawFd, out: &mut [u8]) -> Result<usize>
    ensures ok { IfOk result (λ n. IsPrefixLen n out.new) }
    ensures err { OnErr result (length out.new ≡ length out.old) }
{
    let fd = file.as_raw_fd();
    let link = format!(in rt.alloc(); "/proc/self/fd/{fd}")?;
    let name = fs::read_link(rt, link.as_str())?;
    Ok(put(out, 0, name.as_str().as_bytes()))
}

// Whether anything stands under a name. A link counts, wherever it leads.
pub fn stands(rt: &impl Files, path: &[u8]) -> Result<bool> {
    match looked(rt, path) {
        Ok(_) => Ok(true),
        Err(e) if e.kind() == ErrorKind::NotFound => Ok(false),
        Err(e) => Err(e),
    }
}

fn looked(rt: &impl Files, path: &[u8]) -> Result<Metadata> {
    fs::symlink_metadata(rt, text(path)?)
}

// Whether the name is a link's, or the system does not tell.
pub fn is_link(rt: &impl Files, path: &[u8]) -> bool {
    looked(rt, path).map_or(true, |found| found.is_symlink())
}
