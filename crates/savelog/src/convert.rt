// Converters: a log of old records to one of the present form, and back. Everything is looked at before the first byte is written, so a refusal leaves the
// target. specs/Convert.antt says what they give.
#![tactic(auto, unfolding(crate::specs::Convert::room, crate::specs::Convert::conversion))]

ghost use Rattle.std.specs.Prelude.{true, ◌++◌, ◌≡◌, ◌*◌, ◌+◌, ◌/◌, ◌<◌, ◌≤◌, length, drop};
ghost use Rattle.savelog.specs.Log.{Three, Four, width_of, end_of, log_limit, record_number, record_bytes, records_by, all_sound};
ghost use Rattle.savelog.specs.Convert.{bytes_by, length_by, room, Converts, converted_of};
ghost use Rattle.savelog.specs.ConvertLaws.{OldCorner, SameRecords, ThereAndBack, BackExactly, LastDropped, InParts, PastStays, RecoversAsBefore, OneConversion, OneConverted};

use crate::{Form, LOG_LIMIT, put_number, record_of};
use numbers::Refusal;

// Whether a log of `source` bytes, converted, has the length of a log and fits a target of `target` bytes.
fn has_room(from: Form, to: Form, source: usize, target: usize) -> bool
    ensures { result ≡ room from to source target }
{
    if LOG_LIMIT < source {
        return false;
    }
    let len = source / from.len() * to.len();
    len <= LOG_LIMIT && len <= target
}

// Writes each whole record of the source in the target's form. The target's place is counted: a log of one record took 82 instructions with `enumerate`, over
// its budget of 78, and takes 70 so, as with both places counted; and of what `chunks_exact_mut` lends a proof knows the length alone.
fn write_all(from: Form, to: Form, source: &[u8], target: &mut [u8]) -> u16
    requires { (room from to (length source.now) (length target.old) ≡ true) × (all_sound (end_of to) (records_by from source.now) ≡ true) }
    ensures { (target.new ≡ bytes_by to (records_by from source.now) ++ drop (length_by from to (length source.now)) target.old) × (result ≡ length_by from to (length source.now)) }
{
    let more = to.len();
    let mut o = 0;
    for bytes in source.chunks_exact(from.len()) {
        let rec = record_of(from, bytes);
        put_number(&mut target[o..o + more], to.number(rec.address, rec.value));
        o += more;
    }
    o as u16
}

// Gives how many bytes of the target are the new log.
fn convert(from: Form, to: Form, source: &[u8], target: &mut [u8]) -> Result<u16, Refusal>
    ensures { Converts from to source.now target.old (converted_of result) target.new }
{
    if !has_room(from, to, source.len(), target.len()) {
        return Err(Refusal::WrongLength);
    }
    if !crate::sound(from, source, to.end()) {
        return Err(Refusal::Damaged);
    }
    Ok(write_all(from, to, source, target))
}

// An old log to one of the present form. A name for each way: both are public calls, and an entry of the C interface each.
pub fn to_new(old: &[u8], new: &mut [u8]) -> Result<u16, Refusal>
    ensures { Converts Three Four old.now new.old (converted_of result) new.new }
{
    convert(Form::Three, Form::Four, old, new)
}

// And back, where every address is below 32,768: `convert` the other way round.
pub fn to_old(new: &[u8], old: &mut [u8]) -> Result<u16, Refusal>
    ensures { Converts Four Three new.now old.old (converted_of result) old.new }
{
    convert(Form::Four, Form::Three, new, old)
}

// The laws of specs/ConvertLaws.antt, as a contract: its proof hands them over.
pub fn converters_hold()
    ensures { OldCorner × SameRecords × ThereAndBack × BackExactly × LastDropped × InParts × PastStays × RecoversAsBefore × OneConversion × OneConverted }
{}
