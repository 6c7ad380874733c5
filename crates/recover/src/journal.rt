// The log's records, read twice from one file and in parts of whole records: first how many bytes they are and where their zeros begin, then
// themselves over the save.
ghost use Rattle.std.specs.Prelude.{true, ◌≡◌, ◌-◌, ◌≤◌, ◌<◌, min, length, take, IfOk, OnOk, OnErr};
ghost use Rattle.io.specs.Counts.{IsPrefixLen};
ghost use Rattle.numbers.specs.Refusal.{number_given};
ghost use Rattle.savelog.specs.Log.{save_lengths, one_of, outcome};
ghost use Rattle.recover_messages.specs.Journal.{Bounded, journal_limit, kept_of, recovery_by, part_limit, Played, PlayedPart};

use crate::say::Ended;
use crate::{files, say};
use numbers::Refusal;
use recover_messages::journal;
use recover_messages::journal::{Journal, PART, Scan};
use recover_messages::message::Why;
use savelog::Form;
use std::io;
use std::io::{Error, Read, Seek};
use std::rt::Runtime;

// A log that is open: the argument that names it, the form of its records, the bytes before them, the bytes of the file, whether its mark is torn.
#[derive(Clone, Copy)]
pub struct Log {
    pub name: usize,
    pub form: Form,
    pub before: u16,
    pub len: usize,
    pub torn: bool,
}

impl Log {
    // It is not read on.
    fn failed(self, rt: &impl Runtime, why: Why) -> Ended {
        say::failed(rt, why, self.name, self.len)
    }

    // A call that reads it failed.
    fn unread(self, rt: &impl Runtime, error: Error) -> Ended {
        say::failed_call(rt, error, Why::Unread, self.name, self.len)
    }
}

// One that was scanned, to its end. The invariant is `Journal`'s: a `Journal` in here would have the form of `log` a second time.
#[derive(Clone, Copy)]
pub struct Scanned {
    pub log: Log,
    pub scan: Scan,
    ghost within: { (scan.end ≤ scan.len) × (scan.len ≤ journal_limit) },
}

impl Scanned {
    pub fn journal(self) -> Journal
        ensures { (result.form ≡ self.log.form) × (result.scan ≡ self.scan) }
    {
        Journal {
            form: self.log.form,
            scan: self.scan,
        }
    }
}

// The next part scanned.
fn scan_part(rt: &impl Runtime, file: &mut impl Read, log: Log, s: Scan) -> Result<Scan, Ended>
    requires { Bounded s }
    ensures { IfOk result (λ r. Bounded r × (s.len < r.len)) }
{
    if s.len > journal::LIMIT {
        return Err(log.failed(rt, Why::Unread));
    }
    let mut part = [0u8; PART];
    let n = files::part(file, &mut part).map_err(|e| log.unread(rt, e))?;
    if n == 0 {
        return Err(log.failed(rt, Why::Changed));
    }
    Ok(journal::scanned(s, &part[..n]))
}

// All of a log that has `len` bytes from here on.
pub fn scan(rt: &impl Runtime, file: &mut impl Read, log: Log, len: usize) -> Result<Scan, Ended>
    ensures { IfOk result (λ r. Bounded r) }
{
    let mut s = journal::unread();
    while s.len < len {
        s = scan_part(rt, file, log, s)?;
    }
    Ok(s)
}

// To the log's records.
fn to_records(rt: &impl Runtime, file: &mut impl Seek, log: Log) -> Result<(), Ended> {
    files::again(file, log.before).map_err(|e| log.unread(rt, e))
}

// The first time: the scan of all the log's records, and no bytes behind them. Then the file is at its records again.
pub fn scan_all<F: Read + Seek>(rt: &impl Runtime, file: &mut F, log: Log) -> Result<Scanned, Ended>
    requires { log.before ≤ log.len }
    ensures { IfOk result (λ r. r.log ≡ log) }
{
    to_records(rt, file, log)?;
    let len = log.len - log.before as usize;
    let scan = scan(rt, file, log, len)?;
    if scan.len > len {
        return Err(log.failed(rt, Why::Changed));
    }
    if scan.len > journal::LIMIT {
        return Err(log.failed(rt, Why::Unread));
    }
    say::ends(rt, file, log.name, log.len)?;
    to_records(rt, file, log)?;
    Ok(Scanned { log, scan })
}

// Of n bytes from `at` on, those before `kept`.
fn before(n: usize, at: usize, kept: usize) -> usize
    ensures { result ≡ min n (kept - at) }
{
    n.min(kept.saturating_sub(at))
}

// Plays a part of the log over the save; s is the scan before it. Where it is refused, its damaged record is told.
// `save, log, s` go one by one from here on: the save is lent anew to each call, the log stays, and the scan is another at each turn.
// That a save has a length that saves have is a fact of a lent slice: `savelog::recover` takes one, so a struct over it would be taken apart at each call.
fn play(rt: &impl Runtime, save: &mut [u8], part: &[u8], log: Log, s: Scan) -> Result<(), Refusal>
    requires { (s.len ≤ journal_limit) × (one_of (length save.old) save_lengths ≡ true) × (length part.now ≤ part_limit log.form) }
    ensures { outcome (number_given result) save.new ≡ recovery_by log.form save.old part.now }
{
    let played = journal::recover(log.form, save, part);
    if played.is_err() {
        say::damage(rt, log, s, part, save.len());
    }
    played
}

// The same, as far as it stands before `kept`.
fn play_kept(
    rt: &impl Runtime,
    save: &mut [u8],
    part: &[u8],
    log: Log,
    s: Scan,
    kept: usize,
) -> Result<(), Refusal>
    requires { (s.len ≤ journal_limit) × (one_of (length save.old) save_lengths ≡ true) × (length part.now ≤ part_limit log.form) }
    ensures { outcome (number_given result) save.new ≡ recovery_by log.form save.old (take (kept - s.len) part.now) }
{
    let n = before(part.len(), s.len, kept);
    play(rt, save, &part[..n], log, s)
}

// Reads the next part: as many records as one has.
fn next_part(file: &mut impl Read, form: Form, part: &mut [u8]) -> io::Result<usize>
    requires { part_limit form ≤ length part.old }
    ensures ok { IfOk result (λ n. IsPrefixLen n part.new × (n ≤ part_limit form)) }
    ensures err { OnErr result (length part.new ≡ length part.old) }
{
    let most = journal::bytes_of(form, journal::PART_RECORDS);
    files::part(file, &mut part[..most])
}

// The next part scanned and played. A part begins where a record does.
fn play_next(
    rt: &impl Runtime,
    file: &mut impl Read,
    log: Log,
    save: &mut [u8],
    s: Scan,
    kept: usize,
) -> Result<Scan, Ended>
    requires { Bounded s × (one_of (length save.old) save_lengths ≡ true) × (s.len ≤ journal_limit) }
    ensures { IfOk result (λ r. Bounded r × (s.len < r.len) × PlayedPart log.form kept s save.old save.new r) }
{
    if journal::rest_of(log.form, s.len) != 0 {
        return Err(log.failed(rt, Why::Changed));
    }
    let mut part = [0u8; PART];
    let n = next_part(file, log.form, &mut part).map_err(|e| log.unread(rt, e))?;
    if n == 0 {
        return Err(log.failed(rt, Why::Changed));
    }
    play_kept(rt, save, &part[..n], log, s, kept)?;
    Ok(journal::scanned(s, &part[..n]))
}

// The second time: the records of what is kept over the save, all of it as the first time, and sound.
pub fn play_all(
    rt: &impl Runtime,
    file: &mut impl Read,
    read: Scanned,
    save: &mut [u8],
) -> Result<(), Ended>
    requires { one_of (length save.old) save_lengths ≡ true }
    ensures { OnOk result (Played read.log.form (kept_of read.log.form read.scan) read.scan save.old save.new) }
{
    let log = read.log;
    let first = read.scan;
    let kept = read.journal().kept();
    let mut s = journal::unread();
    while s.len < first.len {
        s = play_next(rt, file, log, save, s, kept)?;
    }
    if s != first {
        return Err(log.failed(rt, Why::Changed));
    }
    say::ends(rt, file, log.name, log.len)
}
