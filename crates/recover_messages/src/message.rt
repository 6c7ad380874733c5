// The messages, each a whole line on a page. A name is the file's, as the user wrote it. It need not be UTF-8, which is all that a
// `Display` writes, so messages are bytes.
ghost use Rattle.std.specs.Prelude.{◌≡◌, ◌+◌, ◌*◌, ◌≤◌, length};
ghost use Rattle.savelog.specs.Log.{width_of};
ghost use Rattle.recover_text.specs.Page.{Puts};
ghost use Rattle.recover_messages.specs.Journal.{journal_limit};
ghost use Rattle.recover_messages.specs.Messages.{room, sized, why_text, recovered_text, written_line, shown_line, left_out_line};
ghost use Rattle.recover_messages.specs.Messages.{end_line, torn_mark_line, wrong_length_line, damaged_line, damage_line, note_line, failed_line};

use crate::journal::{Journal, Scan, bytes_of, records_in, rest_of, sound_records};
use recover_text::put::Page;
use savelog::Form;

// `page, name, len` stand one by one, as each sentence takes another part of them. That a line has room behind the name is a fact of page and name: a struct of
// both would be made and taken apart in every sentence.

// What a file is told for.
#[derive(Clone, Copy)]
pub enum Why {
    // Nothing stands under its name that the system tells of; it is a folder, a pipe or a device.
    Absent,
    Irregular,
    // It could not be read, or not be written.
    Unread,
    Unwritten,
    // As the new save: it is there already, it is the save, it is the log.
    Exists,
    IsSave,
    IsLog,
    // It was another one when it was looked at again.
    Changed,
    // It is written, and its folder could not be flushed to the disk.
    Unflushed,
    // As the log: it lacks the mark, and by the words it has none and begins with one.
    Unmarked,
    Marked,
}

// A number of bytes between two texts.
fn sized(page: &mut Page<'_>, before: &[u8], n: u64, behind: &[u8])
    requires { page.old.end + length before.now + 26 + length behind.now ≤ length page.old.out.now }
    ensures { Puts page.old (sized before.now n behind.now) page.new }
{
    page.text(before);
    page.counted(n, b"byte");
    page.text(behind);
}

// How many records were played: the last line's beginning.
fn recovered(page: &mut Page<'_>, j: Journal)
    requires { page.old.end + room ≤ length page.old.out.now }
    ensures { Puts page.old (recovered_text j.form j.scan) page.new × (page.new.end ≤ page.old.end + 42) }
{
    let records = records_in(j.form, j.kept());
    page.text(b"0: recovered, ");
    page.counted(records as u64, b"record");
}

// The last line, where the new save of `len` bytes is written.
pub fn written(page: &mut Page<'_>, j: Journal, name: &[u8], len: u64)
    requires { page.old.end + length name.now + room ≤ length page.old.out.now }
    ensures { Puts page.old (written_line j.form j.scan name.now len) page.new }
{
    recovered(page, j);
    page.text(b"; ");
    page.text(name);
    sized(page, b" is written and has ", len, b"\n");
}

// The last line, where no new save is asked for.
pub fn shown(page: &mut Page<'_>, j: Journal)
    requires { page.old.end + room ≤ length page.old.out.now }
    ensures { Puts page.old (shown_line j.form j.scan) page.new }
{
    recovered(page, j);
    page.text(b"; no NEW is named, nothing is written\n");
}

// Of its `len` bytes so many are left out.
fn left_out(page: &mut Page<'_>, name: &[u8], why: &[u8], left: u64, len: u64)
    requires { (page.old.end + length name.now + room ≤ length page.old.out.now) × (length why.now ≤ 60) }
    ensures { Puts page.old (left_out_line name.now why.now left len) page.new }
{
    page.text(name);
    sized(page, why, left, b" of ");
    page.decimal(len);
    page.byte(b'\n');
}

// What is left out at a journal's end; no text, where nothing is. So many bytes are before its records.
pub fn end(page: &mut Page<'_>, name: &[u8], before: usize, j: Journal)
    requires { (page.old.end + length name.now + room ≤ length page.old.out.now) × (before ≤ journal_limit) }
    ensures { Puts page.old (end_line name.now j.form before j.scan) page.new }
{
    let s = j.scan;
    let kept = j.kept();
    let len = (before + s.len) as u64;
    if kept < s.len {
        let why = b": it ends in zeros, as a power cut leaves them; left out: ";
        left_out(page, name, why, (s.len - kept) as u64, len);
        return;
    }
    let left = rest_of(j.form, s.len);
    if left != 0 {
        let why = b": its last record is torn; left out: ";
        left_out(page, name, why, left as u64, len);
    }
}

// The same of a file of `len` bytes whose mark is torn: nothing of it is kept.
pub fn torn_mark(page: &mut Page<'_>, name: &[u8], len: u64)
    requires { page.old.end + length name.now + room ≤ length page.old.out.now }
    ensures { Puts page.old (torn_mark_line name.now len) page.new }
{
    if len != 0 {
        left_out(page, name, b": its mark is torn; left out: ", len, len);
    }
}

// The save has a length that no save has.
pub fn wrong_length(page: &mut Page<'_>, name: &[u8], len: u64)
    requires { page.old.end + length name.now + room ≤ length page.old.out.now }
    ensures { Puts page.old (wrong_length_line name.now len) page.new }
{
    page.text(b"4: refused, ");
    page.text(name);
    sized(
        page,
        b" has ",
        len,
        b"; a save has 0, 512, 8192, 32768 or 131072\n",
    );
}

// The line of a damaged record, of a file of `len` bytes and for a save of `ram` bytes.
fn damaged(page: &mut Page<'_>, name: &[u8], len: u64, number: u64, ram: u64, bytes: &[u8])
    requires { (page.old.end + length name.now + room ≤ length page.old.out.now) × (length bytes.now ≤ 4) }
    ensures { Puts page.old (damaged_line name.now len number ram bytes.now) page.new }
{
    page.text(b"6: refused, ");
    page.text(name);
    sized(page, b" has ", len, b"; its record ");
    page.decimal(number);
    sized(
        page,
        b" is damaged or not of a save of ",
        ram,
        b", its bytes are",
    );
    page.hexes(bytes);
    page.text(b"; nothing is written\n");
}

// The first damaged record of a part, where the scan before it is s and the file has `len` bytes, for a save of `ram` bytes; no text, where none is.
pub fn damage(
    page: &mut Page<'_>,
    name: &[u8],
    form: Form,
    len: usize,
    s: Scan,
    part: &[u8],
    ram: usize,
)
    requires { (page.old.end + length name.now + room ≤ length page.old.out.now) × (s.len ≤ journal_limit) }
    ensures { Puts page.old (damage_line name.now form len s part.now ram) page.new }
{
    let n = sound_records(form, part, ram);
    if records_in(form, part.len()) <= n {
        return;
    }
    let from = bytes_of(form, n);
    let to = from + form.len();
    let before = records_in(form, s.len);
    let number = before + n;
    damaged(
        page,
        name,
        len as u64,
        number as u64,
        ram as u64,
        &part[from..to],
    );
}

fn reason(page: &mut Page<'_>, w: Why, len: u64)
    requires { page.old.end + 160 ≤ length page.old.out.now }
    ensures { Puts page.old (why_text w len) page.new }
{
    match w {
        Why::Absent => page.text(
            b" could not be found, so its size is not known; a regular file was expected\n",
        ),
        Why::Irregular => page.text(
            b" is no regular file, so it has no size; a regular file was expected\n",
        ),
        Why::Unread => sized(
            page,
            b": ",
            len,
            b" could not be read; nothing is written\n",
        ),
        Why::Unwritten => sized(
            page,
            b": ",
            len,
            b" could not be written; save and log are as they were\n",
        ),
        Why::Exists => sized(page, b" exists and has ", len, b"; --replace replaces it\n"),
        Why::IsSave => sized(
            page,
            b" is the save itself and has ",
            len,
            b"; --replace replaces it\n",
        ),
        Why::IsLog => sized(
            page,
            b" is the log and has ",
            len,
            b"; nothing replaces it\n",
        ),
        Why::Changed => sized(
            page,
            b" changed meanwhile: it had ",
            len,
            b"; nothing is written\n",
        ),
        Why::Unflushed => sized(
            page,
            b" is written and has ",
            len,
            b"; its folder could not be flushed to the disk\n",
        ),
        Why::Unmarked => sized(
            page,
            b" has ",
            len,
            b" and does not begin as a journal of version 3 does; if an older version wrote it, --old reads it\n",
        ),
        Why::Marked => sized(
            page,
            b" has ",
            len,
            b" and begins as a journal of version 3 does; leave --old and --bare out\n",
        ),
    }
}

// What is told of a file, and no failure.
pub fn note(page: &mut Page<'_>, w: Why, name: &[u8], len: u64)
    requires { page.old.end + length name.now + room ≤ length page.old.out.now }
    ensures { Puts page.old (note_line w len name.now) page.new }
{
    page.text(name);
    reason(page, w, len);
}

// A failure of the work on files.
pub fn failed(page: &mut Page<'_>, w: Why, name: &[u8], len: u64)
    requires { page.old.end + length name.now + room ≤ length page.old.out.now }
    ensures { Puts page.old (failed_line w len name.now) page.new }
{
    page.text(b"failed: ");
    page.text(name);
    reason(page, w, len);
}
