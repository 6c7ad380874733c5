// recover [--replace] [--speak] [--old | --bare] SAVE LOG [NEW]: plays a save log back over a save, shows what that changes, and writes the
// recovered save to NEW.
// Everything is decided on what was read, before a byte is written. What is shown is crate recover_text's, what is told recover_messages', recovery savelog's.
#![tactic(auto)]

mod begin;
mod files;
mod journal;
mod keep;
mod place;
mod say;
mod show;
mod source;
mod told;
mod words;

ghost use Rattle.std.specs.Prelude.{true, ◌≡◌, ◌≤◌, length};
ghost use Rattle.savelog.specs.Log.{save_limit, save_lengths, one_of};

use journal::Scanned;
use keep::Lost;
use recover_messages::message::Why;
use recover_text::parts::Saves;
use say::Ended;
use source::Source;
use std::fs::File;
use std::random::RandomSource;
use std::rt::Runtime;
use told::Told;
use words::Asked;

// What is asked, and both files that are read.
#[derive(Drop)]
struct Job<F> {
    asked: Asked,
    save: Source<F>,
    log: Source<F>,
}

// Where the recovered save goes: the argument that names NEW, the name to write under, and what stands there, if anything does.
#[derive(Clone, Copy)]
struct Target<'a> {
    argument: usize,
    path: &'a [u8],
    over: Option<Told>,
}

// The name was free, and is so no longer.
fn taken(rt: &impl Runtime, target: Target<'_>, len: usize) -> Ended {
    match told::ask(rt, target.path) {
        Ok(new) if new.regular => say::failed(rt, Why::Exists, target.argument, new.len),
        Ok(_) => say::failed(rt, Why::Irregular, target.argument, 0),
        Err(_) => say::failed(rt, Why::Unwritten, target.argument, len),
    }
}

// Says how the writing of `len` bytes went; where it is done, by the last line.
fn conclude(
    rt: &impl Runtime,
    target: Target<'_>,
    kept: Result<(), Lost>,
    len: usize,
    read: Scanned,
) -> Result<(), Ended> {
    match kept {
        Ok(()) => {}
        Err(Lost::Unflushed) => {
            let _ = say::note(rt, Why::Unflushed, target.argument, len);
        }
        Err(Lost::Taken) => return Err(taken(rt, target, len)),
        Err(Lost::Failed) => return Err(say::failed(rt, Why::Unwritten, target.argument, len)),
    }
    say::written(rt, read, target.argument, len)
}

// Whether SAVE and LOG are what was read, and NEW what was looked at, so not the log either. A NEW that is free is looked at as it is renamed.
fn unchanged<R: Runtime>(
    rt: &R,
    job: &mut Job<R::File>,
    old: &[u8],
    target: Target<'_>,
) -> Result<(), Ended> {
    source::stands(rt, job.save.told, job.asked.save)?;
    source::holds(rt, &mut job.save.file, job.asked.save, old)?;
    source::stands(rt, job.log.told, job.asked.log)?;
    match target.over {
        Some(new) if !told::still(rt, new, target.path) => {
            Err(say::failed(rt, Why::Changed, target.argument, new.len))
        }
        Some(_) | None => Ok(()),
    }
}

// The recovered save is beside NEW: it takes the name, unless what was read is no longer so.
fn settle<R: Runtime>(
    rt: &R,
    job: &mut Job<R::File>,
    old: &[u8],
    beside: &[u8],
    target: Target<'_>,
    read: Scanned,
) -> Result<(), Ended> {
    if let Err(ended) = unchanged(rt, job, old, target) {
        keep::unlink(rt, beside);
        return Err(ended);
    }
    let kept = keep::settle(rt, beside, target.path, target.over.is_none());
    conclude(rt, target, kept, old.len(), read)
}

// Writes the recovered save, where that is asked for, and only then tells success.
fn finish<R: Runtime + RandomSource>(
    rt: &R,
    job: &mut Job<R::File>,
    old: &[u8],
    save: &[u8],
    target: Option<Target<'_>>,
    read: Scanned,
) -> Result<(), Ended> {
    let Some(target) = target else {
        return say::shown(rt, read);
    };
    let mut name = io::buffer();
    let Some(n) = keep::beside(rt, target.path, save, &mut name) else {
        return Err(say::failed(rt, Why::Unwritten, target.argument, save.len()));
    };
    settle(rt, job, old, &name[..n], target, read)
}

// Plays the log over the save and prints what came of it, then goes on to NEW.
fn recover<R: Runtime + RandomSource>(
    rt: &R,
    job: &mut Job<R::File>,
    save: &mut [u8],
    old: &mut [u8],
    target: Option<Target<'_>>,
    read: Scanned,
) -> Result<(), Ended>
    requires { (one_of (length save.old) save_lengths ≡ true) × (save_limit ≤ length old.old) }
{
    show::changes(rt, &mut job.log.file, read, save, old)?;
    say::end(rt, read)?;
    let n = save.len();
    let saves = Saves {
        old: &old[..n],
        new: save,
    };
    show::report(rt, saves, job.asked.speak)?;
    finish(rt, job, &old[..n], save, target, read)
}

// Looks at what the log begins with, and scans it, all of it or none.
fn with_job<R: Runtime + RandomSource>(
    rt: &R,
    job: &mut Job<R::File>,
    save: &mut [u8],
    target: Option<Target<'_>>,
) -> Result<(), Ended>
    requires { one_of (length save.old) save_lengths ≡ true }
{
    let log = begin::begin(rt, &mut job.log.file, job.asked, job.log.told.len)?;
    let read = journal::scan_all(rt, &mut job.log.file, log)?;
    let mut old = [0u8; savelog::SAVE_LIMIT];
    recover(rt, job, save, &mut old, target, read)
}

// Opens the log, and looks at NEW before anything is done.
fn with_log<R: Runtime<File = File> + RandomSource>(
    rt: &R,
    asked: Asked,
    save: Source<File>,
    bytes: &mut [u8],
) -> Result<(), Ended>
    requires { one_of (length bytes.old) save_lengths ≡ true }
{
    let log = source::open(rt, asked.log)?;
    let mut path = io::buffer();
    let place = place::choose(rt, asked, save.told, log.told, &mut path)?;
    let target = place.map(|place| Target {
        argument: place.argument,
        path: &path[..place.len],
        over: place.over,
    });
    let mut job = Job { asked, save, log };
    with_job(rt, &mut job, bytes, target)
}

// Takes the bytes of SAVE for the save, if they are as many as the system told. That a save has so many was asked before; here it is known.
fn with_bytes<R: Runtime<File = File> + RandomSource>(
    rt: &R,
    asked: Asked,
    save: Source<File>,
    bytes: &mut [u8],
) -> Result<(), Ended> {
    let len = save.told.len;
    if bytes.len() != len || !place::is_save(bytes) {
        return Err(say::failed(rt, Why::Changed, asked.save, len));
    }
    with_log(rt, asked, save, bytes)
}

// Reads the save, if its length is one, with room for one byte more than a save may have.
fn with_save<R: Runtime<File = File> + RandomSource>(rt: &R, asked: Asked) -> Result<(), Ended> {
    let mut save = source::open(rt, asked.save)?;
    place::holds_save(rt, save.told, asked.save)?;
    let mut bytes = [0u8; savelog::SAVE_LIMIT + 1];
    let n = files::part(&mut save.file, &mut bytes).map_err(|e| say::failed_call(
        rt,
        e,
        Why::Unread,
        asked.save,
        save.told.len,
    ))?;
    with_bytes(rt, asked, save, &mut bytes[..n])
}

fn main(rt: HostRuntime) {
    files::hold_standard(&rt);
    match words::given(&rt) {
        Ok(asked) => {
            let _ = with_save(&rt, asked);
        }
        Err(_) => say::usage(&rt),
    }
}
