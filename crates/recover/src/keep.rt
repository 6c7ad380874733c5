// The recovered save, written beside the name that it is to have, flushed to the disk, and only then renamed.
ghost use Rattle.std.specs.Prelude.{◌≤◌, length, IfSome};
ghost use Rattle.io.specs.Counts.{IsPrefixLen};

use crate::{files, say};
use recover_text::put::pair;
use std::fs::{File, OpenFile, OpenOptions};
use std::io::Write;
use std::random::RandomSource;
use std::rt::{Files, Runtime};
use std::{fs, io};

// Why the recovered save does not stand under its name, flushed.
#[derive(Clone, Copy, Debug, PartialEq, Eq)]
pub enum Lost {
    // It stands there, and the folder could not be flushed.
    Unflushed,
    // Something else took the name in the meantime.
    Taken,
    Failed,
}

fn fill<F: Write + OpenFile>(file: &mut F, save: &[u8]) -> io::Result<()> {
    file.write_all(save)?;
    file.sync_all()
}

// Where the last part of a path begins.
fn last_part(path: &[u8]) -> usize
    ensures { result ≤ length path.now }
{
    path.iter().rposition(|b| *b == b'/').map_or(0, |i| i + 1)
}

fn open_folder<R: Files>(rt: &R, path: &[u8]) -> io::Result<R::File> {
    let n = last_part(path);
    if n == 0 {
        return File::open(rt, ".");
    }
    File::open(rt, files::text(&path[..n])?)
}

// The folder's own entry of the name, on the disk.
fn flush(rt: &impl Files, path: &[u8]) -> io::Result<()> {
    let folder = open_folder(rt, path)?;
    folder.sync_all()
}

// The name is gone, if it can be.
pub fn unlink(rt: &impl Files, name: &[u8]) {
    if let Ok(text) = files::text(name) {
        let _ = fs::remove_file(rt, text);
    }
}

// What a name is called where the system's error is told.
fn shown(name: &[u8]) -> &str {
    files::text(name).unwrap_or("recover")
}

fn renamed(rt: &impl Files, beside: &[u8], path: &[u8]) -> io::Result<()> {
    fs::rename(rt, files::text(beside)?, files::text(path)?)
}

fn rename(rt: &impl Runtime, beside: &[u8], path: &[u8]) -> Result<(), Lost> {
    if let Err(e) = renamed(rt, beside, path) {
        say::fail(rt, shown(path), e);
        unlink(rt, beside);
        return Err(Lost::Failed);
    }
    flush(rt, path).map_err(|_| Lost::Unflushed)
}

// The file beside takes the name; where that was free, only if it still is.
pub fn settle(rt: &impl Runtime, beside: &[u8], path: &[u8], free: bool) -> Result<(), Lost> {
    if free {
        let lost = match files::stands(rt, path) {
            Ok(false) => return rename(rt, beside, path),
            Ok(true) => Lost::Taken,
            Err(_) => Lost::Failed,
        };
        unlink(rt, beside);
        return Err(lost);
    }
    rename(rt, beside, path)
}

// What the name beside has behind the path: a full stop and eight digits that no other run has.
fn suffix(rt: &impl RandomSource) -> [u8; 9] {
    let mut r = [0u8; 4];
    let _ = rt.fill_bytes(&mut r);
    let [[a, b], [c, d], [e, f], [g, h]] = r.map(pair);
    [b'.', a, b, c, d, e, f, g, h]
}

// A new file of this name, where nothing stands under it.
fn create<R: Files>(rt: &R, name: &[u8]) -> io::Result<R::File> {
    OpenOptions::new()
        .write(true)
        .create_new(true)
        .open(rt, files::text(name)?)
}

// Puts the name beside into `name`, and makes the file there, all of it on the disk: the name's length; nothing, where it could not be.
pub fn beside<R: Runtime + RandomSource>(
    rt: &R,
    path: &[u8],
    save: &[u8],
    name: &mut [u8],
) -> Option<usize>
    ensures { IfSome result (λ n. IsPrefixLen n name.new) }
{
    let end = suffix(rt);
    let a = files::put(name, 0, path);
    let n = files::put(name, a, &end);
    if n >= name.len() {
        return None;
    }
    let mut file = match create(rt, &name[..n]) {
        Ok(file) => file,
        Err(e) => {
            say::fail(rt, shown(&name[..n]), e);
            return None;
        }
    };
    if let Err(e) = fill(&mut file, save) {
        say::fail(rt, "recover", e);
        unlink(rt, &name[..n]);
        return None;
    }
    Some(n)
}
