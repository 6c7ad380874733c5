// NEW: whether it may be written, and under which name.
ghost use Rattle.std.specs.Prelude.{true, false, ◌≡◌, length, IfOk, IfSome, OnOk, OnErr};
ghost use Rattle.io.specs.Counts.{IsPrefixLen};
ghost use Rattle.savelog.specs.Log.{save_lengths, one_of};
ghost use Rattle.recover.specs.Files.{one_file};

use crate::say::Ended;
use crate::told::Told;
use crate::words::Asked;
use crate::{files, say, told};
use recover_messages::message::Why;
use std::fs::{File, OpenOptions};
use std::io::{Error, ErrorKind};
use std::os::fd::AsRawFd;
use std::rt::Runtime;

// The argument that names NEW, the name's length, and what stands under it, if anything does. The name lies in a fixed buffer, which is lent: `choose` promises its
// length, and main's `Target` has the name itself, once the buffer is no longer lent.
#[derive(Clone, Copy)]
pub struct Place {
    pub argument: usize,
    pub len: usize,
    pub over: Option<Told>,
}

// Whether recovery takes a save of these bytes: it is asked with no log, which leaves them as they are.
pub fn is_save(bytes: &mut [u8]) -> bool
    ensures { (result ≡ one_of (length bytes.old) save_lengths) × (bytes.new ≡ bytes.old) }
{
    savelog::recover(bytes, &[]).is_ok()
}

// Whether it takes one of n bytes, where there is room for so many.
fn is_length(room: &mut [u8], n: usize) -> bool
    ensures { result ≡ true → one_of n save_lengths ≡ true }
{
    n <= room.len() && is_save(&mut room[..n])
}

// Whether the file that argument i names has a save's length.
pub fn holds_save(rt: &impl Runtime, told: Told, i: usize) -> Result<(), Ended>
    ensures { OnOk result (one_of told.len save_lengths ≡ true) }
{
    let mut room = [0u8; savelog::SAVE_LIMIT];
    if is_length(&mut room, told.len) {
        return Ok(());
    }
    Err(say::wrong_length(rt, i, told.len))
}

// Whether what is told of NEW, which argument i names, lets it be replaced. What is told of SAVE and LOG comes one by one: a pair of both would be taken apart here.
fn may_replace(
    rt: &impl Runtime,
    replace: bool,
    i: usize,
    new: Told,
    save: Told,
    log: Told,
) -> Result<(), Ended>
    ensures { OnOk result ((new.regular ≡ true) × ((one_file new log ≡ false) × (one_of new.len save_lengths ≡ true))) }
{
    if !new.regular {
        return Err(say::failed(rt, Why::Irregular, i, 0));
    }
    if told::same(new, log) {
        return Err(say::failed(rt, Why::IsLog, i, new.len));
    }
    holds_save(rt, new, i)?;
    if replace {
        return Ok(());
    }
    let why = if told::same(new, save) {
        Why::IsSave
    } else {
        Why::Exists
    };
    Err(say::failed(rt, why, i, new.len))
}

// Whether a name came that is not UTF-8.
fn is_unsayable(e: &Error) -> bool {
    e.kind() == ErrorKind::InvalidFilename && e.raw_os_error().is_none()
}

// Opened for writing, though nothing is written there, so that a file that is protected stays. Puts the name without links: what a link leads to is replaced,
// not the link. Where that one is not UTF-8, a name that is no link's stays as it is. The name's length goes beside `path`, as the name that is put is another.
fn opened_name<R: Runtime>(rt: &R, path: &mut [u8], n: usize) -> std::io::Result<usize>
where
    R::File: AsRawFd,
    requires { IsPrefixLen n path.old }
    ensures ok { IfOk result (λ m. IsPrefixLen m path.new) }
    ensures err { OnErr result (length path.new ≡ length path.old) }
{
    let file = OpenOptions::new()
        .read(true)
        .write(true)
        .open(rt, files::text(&path[..n])?)?;
    match files::name_of(rt, &file, path) {
        Ok(m) => Ok(m),
        Err(e) => {
            if is_unsayable(&e) && !files::is_link(rt, &path[..n]) {
                return Ok(n);
            }
            Err(e)
        }
    }
}

// The same, if it is the file that was told of.
fn real_name<R: Runtime>(
    rt: &R,
    new: Told,
    path: &mut [u8],
    n: usize,
) -> std::io::Result<Option<usize>>
where
    R::File: AsRawFd,
    requires { IsPrefixLen n path.old }
    ensures ok { IfOk result (λ r. IfSome r (λ m. IsPrefixLen m path.new)) }
    ensures err { OnErr result (length path.new ≡ length path.old) }
{
    let len = opened_name(rt, path, n)?;
    match told::ask(rt, &path[..len]) {
        Ok(now) if told::same(new, now) => Ok(Some(len)),
        Ok(_) | Err(_) => Ok(None),
    }
}

// What to write over, where something stands under the name.
fn replaced<R: Runtime>(
    rt: &R,
    replace: bool,
    i: usize,
    save: Told,
    log: Told,
    path: &mut [u8],
    n: usize,
) -> Result<Place, Ended>
where
    R::File: AsRawFd,
    requires { IsPrefixLen n path.old }
    ensures { IfOk result (λ p. IsPrefixLen p.len path.new) }
{
    let new = told::ask(rt, &path[..n]).map_err(|e| say::failed_call(
        rt,
        e,
        Why::Unwritten,
        i,
        save.len,
    ))?;
    may_replace(rt, replace, i, new, save, log)?;
    let len = real_name(rt, new, path, n).map_err(|e| say::failed_call(
        rt,
        e,
        Why::Unwritten,
        i,
        save.len,
    ))?;
    match len {
        Some(len) => Ok(Place {
            argument: i,
            len,
            over: Some(new),
        }),
        None => Err(say::failed(rt, Why::Unwritten, i, save.len)),
    }
}

// Puts the name to write under into `path`; none, where nothing is to be written.
pub fn choose<R: Runtime>(
    rt: &R,
    asked: Asked,
    save: Told,
    log: Told,
    path: &mut [u8],
) -> Result<Option<Place>, Ended>
where
    R::File: AsRawFd,
    ensures { IfOk result (λ r. IfSome r (λ p. IsPrefixLen p.len path.new)) }
{
    let Some(i) = asked.new else {
        return Ok(None);
    };
    let n = say::argument(rt, i, path);
    if n == 0 {
        return Err(say::failed(rt, Why::Unwritten, i, save.len));
    }
    let there = files::stands(rt, &path[..n]).map_err(|e| say::failed_call(
        rt,
        e,
        Why::Unwritten,
        i,
        save.len,
    ))?;
    if there {
        let place = replaced(rt, asked.replace, i, save, log, path, n)?;
        return Ok(Some(place));
    }
    Ok(Some(Place {
        argument: i,
        len: n,
        over: None,
    }))
}
