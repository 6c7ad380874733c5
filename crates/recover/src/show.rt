// The log played over the save; then all that this changes, printed in parts, as the report on the longest save is longer than a buffer should be.
ghost use Rattle.std.specs.Prelude.{true, ◌≡◌, ◌≤◌, length, take, IfOk, OnOk};
ghost use Rattle.savelog.specs.Log.{save_limit, save_lengths, one_of};
ghost use Rattle.recover_text.specs.Text.{numbered};
ghost use Rattle.recover_text.specs.Rows.{by_row, row_count};
ghost use Rattle.recover_text.specs.Report.{report};
ghost use Rattle.recover_messages.specs.Journal.{kept_of, Played};

use crate::journal::Scanned;
use crate::say::Ended;
use crate::{files, journal, say};
use recover_text::parts;
use recover_text::parts::{Lines, Saves};
use recover_text::rows::Hex;
use recover_text::speak::Heard;
use std::io::Read;
use std::rt::Runtime;

// The bytes of a part of the report.
const ROOM: usize = 65536;

// Plays the log over the save, of which a copy is made in `old`.
pub fn changes(
    rt: &impl Runtime,
    file: &mut impl Read,
    read: Scanned,
    save: &mut [u8],
    old: &mut [u8],
) -> Result<(), Ended>
    requires { (one_of (length save.old) save_lengths ≡ true) × (save_limit ≤ length old.old) }
    ensures { OnOk result (Played read.log.form (kept_of read.log.form read.scan) read.scan save.old save.new
        × (take (length save.old) old.new ≡ save.old)) }
{
    files::copied(save, old);
    journal::play_all(rt, file, read, save)
}

// What is shown of all rows in this way, part by part: as many bytes as it has.
fn print_parts<L: Lines>(rt: &impl Runtime, saves: Saves<'_>) -> Result<usize, Ended>
    requires { L.ROOM ≤ 65536 }
    ensures { IfOk result (λ n. n ≡ length (numbered (by_row L.lines saves.entry.old.now saves.entry.new.now) 0 (row_count saves.entry.old.now))) }
{
    let mut out = [0u8; ROOM];
    let count = saves.old.len() / parts::ROW;
    let mut from = 0;
    let mut len = 0;
    while from < count {
        let part = parts::show::<L>(saves, from, &mut out);
        say::print(rt, &out[..part.len])?;
        len += part.len;
        from = part.next;
    }
    Ok(len)
}

// Prints the report on what changed: as many bytes as it has. `speak` picks the calls, as the definition `report` takes it, and the ways to show a row are types.
pub fn report(rt: &impl Runtime, saves: Saves<'_>, speak: bool) -> Result<usize, Ended>
    ensures { IfOk result (λ n. n ≡ length (report speak saves.entry.old.now saves.entry.new.now)) }
{
    if speak {
        return print_parts::<Heard>(rt, saves);
    }
    let front = print_parts::<Hex>(rt, saves)?;
    let back = print_parts::<Heard>(rt, saves)?;
    Ok(front + back)
}
