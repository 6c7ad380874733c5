// SAVE and LOG, the files that are read: opened, and looked at again before anything is renamed.
ghost use Rattle.std.specs.Prelude.{length, ◌≡◌, IfOk, OnErr};
ghost use Rattle.io.specs.Counts.{IsPrefixLen};

use crate::say::Ended;
use crate::told::Told;
use crate::{files, say, told};
use recover_messages::message::Why;
use std::fs::File;
use std::io::{Read, Seek};
use std::rt::{Files, Runtime};

// The open file, and what the system told of it.
#[derive(Drop)]
pub struct Source<F> {
    pub file: F,
    pub told: Told,
}

fn file_at<R: Files>(rt: &R, path: &[u8]) -> std::io::Result<R::File> {
    File::open(rt, files::text(path)?)
}

// Opens the file that argument i names. Only a regular one is: a pipe would keep the program waiting.
pub fn open<R: Runtime>(rt: &R, i: usize) -> Result<Source<R::File>, Ended> {
    let mut path = io::buffer();
    let n = say::argument(rt, i, &mut path);
    let told = told::ask(rt, &path[..n]).map_err(|e| say::failed_call(rt, e, Why::Absent, i, 0))?;
    if !told.regular {
        return Err(say::failed(rt, Why::Irregular, i, 0));
    }
    let file = file_at(rt, &path[..n]).map_err(|e| say::failed_call(
        rt,
        e,
        Why::Unread,
        i,
        told.len,
    ))?;
    Ok(Source { file, told })
}

// Whether the name leads to that file still, as it was.
pub fn stands(rt: &impl Runtime, told: Told, i: usize) -> Result<(), Ended> {
    let mut path = io::buffer();
    let n = say::argument(rt, i, &mut path);
    if told::still(rt, told, &path[..n]) {
        return Ok(());
    }
    Err(say::failed(rt, Why::Changed, i, told.len))
}

// The whole file once more.
fn whole<F: Read + Seek>(file: &mut F, buf: &mut [u8]) -> std::io::Result<usize>
    ensures ok { IfOk result (λ n. IsPrefixLen n buf.new) }
    ensures err { OnErr result (length buf.new ≡ length buf.old) }
{
    files::again(file, 0)?;
    files::part(file, buf)
}

// Whether SAVE has these bytes still.
pub fn holds<F: Read + Seek>(
    rt: &impl Runtime,
    file: &mut F,
    i: usize,
    bytes: &[u8],
) -> Result<(), Ended> {
    let mut buf = [0u8; savelog::SAVE_LIMIT + 1];
    match whole(file, &mut buf) {
        Ok(n) if &buf[..n] == bytes => Ok(()),
        Ok(_) => Err(say::failed(rt, Why::Changed, i, bytes.len())),
        Err(e) => Err(say::failed_call(rt, e, Why::Unread, i, bytes.len())),
    }
}
