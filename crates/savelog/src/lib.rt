// The save log: a record for each stored save byte, appended one by one and, after a loss, played back over the save.
// specs/Log.antt says what the bytes mean, specs/Laws.antt what survives a cut; recovery's numbers are those of crate `numbers`.
#![tactic(auto, unfolding(crate::specs::Log::record_number, crate::specs::Log::record_bytes, crate::specs::Log::fields_of, crate::specs::Log::lengths_fit, crate::specs::Log::one_of, crate::specs::Log::save_lengths, crate::specs::Log::recovery, crate::specs::Log::appended, crate::specs::Log::use_in_range))]

ghost use Rattle.std.specs.Prelude.{true, ◌++◌, ◌≡◌, ◌+◌, ◌<◌, ◌≤◌, length, take, drop};
ghost use Rattle.numbers.specs.Refusal.{number_given};
ghost use Rattle.savelog.specs.Log.{Four, width, address_end, width_of, end_of, spare_of, log_limit, bytes_of, number_from, record_number, fields_of, record_of, records_by, records, sound_record, all_sound, apply_all, lengths_fit, Recovers, Appends, cleared_use, use_in_range, full};
ghost use Rattle.savelog.specs.Laws.{Corner, AppendLaw, PrefixLaw, LastIgnored, CopiesLaw, OneRecovery, OneRecovered, OneAppend};

mod convert;

pub use convert::{converters_hold, to_new, to_old};
use numbers::Refusal;

// The forms of a record: four bytes, and the three of versions before 3.0, which players' old logs have.
#[derive(Clone, Copy, Debug, PartialEq, Eq)]
pub enum Form {
    Three,
    Four,
}

// The bytes of a record, and of an old one.
pub const RECORD_LEN: usize = 4;

pub const OLD_RECORD_LEN: usize = 3;

// Where a record's addresses end, and an old one's.
pub const ADDRESS_END: usize = 131072;

pub const OLD_ADDRESS_END: usize = 32768;

// What the bits behind the value count up to: six, all 0.
const SPARE_END: u32 = 64;

// The most bytes of a log; where none is lent, its use is held to them.
pub const LOG_LIMIT: usize = 65535;

// The most bytes of a save.
pub const SAVE_LIMIT: usize = 131072;

// What a record's bits say.
#[derive(Clone, Copy, Debug, PartialEq, Eq)]
pub struct Rec {
    pub mark: u32,
    pub address: usize,
    pub value: u8,
    pub spare: u8,
}

impl Form {
    // The bytes of a record.
    pub fn len(self) -> usize
        ensures { result ≡ width_of self }
    {
        match self {
            Form::Three => OLD_RECORD_LEN,
            Form::Four => RECORD_LEN,
        }
    }

    // Where its addresses end.
    pub fn end(self) -> usize
        ensures { result ≡ end_of self }
    {
        match self {
            Form::Three => OLD_ADDRESS_END,
            Form::Four => ADDRESS_END,
        }
    }

    // What the bits behind its value count up to. `len`, `end` and this are three facts of a form, as definitions have them: no function needs all three.
    fn spare_end(self) -> u32
        ensures { result ≡ spare_of self }
    {
        match self {
            Form::Three => 1,
            Form::Four => SPARE_END,
        }
    }

    // The record of one stored byte as a number.
    fn number(self, at: usize, value: u8) -> u32
        requires { at < end_of self }
        ensures { result ≡ record_number self at value }
    {
        ((self.end() + at) as u32 * 256 + u32::from(value)) * self.spare_end()
    }

    // What a record's number says.
    fn fields(self, number: u32) -> Rec
        ensures { result ≡ fields_of self number }
    {
        let byte = number / self.spare_end();
        let head = byte / 256;
        let end = self.end() as u32;
        Rec {
            mark: head / end,
            address: (head % end) as usize,
            value: (byte % 256) as u8,
            spare: (number % self.spare_end()) as u8,
        }
    }
}

// The record of one stored byte, in the present form, as a number.
pub fn record_number(at: usize, value: u8) -> u32
    requires { at < address_end }
    ensures { result ≡ record_number Four at value }
{
    Form::Four.number(at, value)
}

// Writes a number as the bytes of a place.
fn put_number(place: &mut [u8], number: u32)
    requires { length place.old ≤ 4 }
    ensures { place.new ≡ bytes_of (length place.old) number }
{
    let bytes = number.to_be_bytes();
    place.copy_from_slice(&bytes[4 - place.len()..]);
}

// The record of these bytes.
pub fn record_of(form: Form, bytes: &[u8]) -> Rec
    requires { length bytes.now ≡ width_of form }
    ensures { result ≡ record_of form bytes.now }
{
    // By how many bytes make the number: `from_be_bytes` takes an array, whose length is its type.
    let number = match form {
        Form::Three => u32::from_be_bytes([0, bytes[0], bytes[1], bytes[2]]),
        Form::Four => u32::from_be_bytes([bytes[0], bytes[1], bytes[2], bytes[3]]),
    };
    form.fields(number)
}

// The record whose bytes begin at `i`.
pub fn record_at(form: Form, log: &[u8], i: usize) -> Rec
    requires { i + width_of form ≤ length log.now }
    ensures { result ≡ record_of form (take (width_of form) (drop i log.now)) }
{
    record_of(form, &log[i..i + form.len()])
}

// Writes the record of one stored byte at `used`, and gives the next use. The bus sees that there is room.
pub fn append(log: &mut [u8], used: u16, at: usize, value: u8) -> u16
    requires { (used + width ≤ length log.old) × (length log.old ≤ log_limit) × (at < address_end) }
    ensures { Appends log.old used at value result log.new }
{
    let i = used as usize;
    put_number(&mut log[i..i + RECORD_LEN], record_number(at, value));
    (i + RECORD_LEN) as u16
}

// Whether a log of `len` bytes has no room for so many records more.
pub fn full(len: usize, used: u16, more: u8) -> bool
    ensures { result ≡ full len used more }
{
    len < used as usize + more as usize * RECORD_LEN
}

// Clearing gives use 0; the bytes stay, so it takes none.
pub fn clear() -> u16
    ensures { result ≡ cleared_use }
{
    0
}

// Whether a use is in range for a log of `len` bytes.
pub fn use_in_range(used: u16, len: usize) -> bool
    ensures { result ≡ use_in_range used len }
{
    let n = used as usize;
    n % RECORD_LEN == 0 && n <= len
}

// Whether a record is sound for a save of `ram` bytes.
pub fn sound_record(rec: Rec, ram: usize) -> bool
    ensures { result ≡ sound_record ram rec }
{
    rec.mark == 1 && rec.spare == 0 && rec.address < ram
}

// Whether every whole record is sound for a save of `ram` bytes. No `chunks_exact`: with it recovery of an empty log takes a third more, over its budget.
fn sound(form: Form, log: &[u8], ram: usize) -> bool
    ensures { result ≡ all_sound ram (records_by form log.now) }
{
    let len = form.len();
    let mut rest = log;
    while let Some(bytes) = rest.get(..len) {
        if !sound_record(record_of(form, bytes), ram) {
            return false;
        }
        rest = &rest[len..];
    }
    true
}

// Plays the whole records, all of them sound, over the save.
fn apply(save: &mut [u8], log: &[u8])
    requires { all_sound (length save.old) (records log.now) ≡ true }
    ensures { save.new ≡ apply_all save.old (records log.now) }
{
    for bytes in log.chunks_exact(RECORD_LEN) {
        let rec = record_of(Form::Four, bytes);
        save[rec.address] = rec.value;
    }
}

// Whether recovery takes a save and a log of these lengths.
fn lengths_fit(save: usize, log: usize) -> bool
    ensures { result ≡ lengths_fit save log }
{
    matches!(save, 0 | 512 | 8192 | 32768 | SAVE_LIMIT) && log <= LOG_LIMIT
}

// Recovery. Damage is looked for in the whole log before the first byte changes, so a refusal leaves the save.
pub fn recover(save: &mut [u8], log: &[u8]) -> Result<(), Refusal>
    ensures { Recovers save.old log.now (number_given result) save.new }
{
    let ram = save.len();
    if !lengths_fit(ram, log.len()) {
        return Err(Refusal::WrongLength);
    }
    if !sound(Form::Four, log, ram) {
        return Err(Refusal::Damaged);
    }
    apply(save, log);
    Ok(())
}

// How many whole records a log has, damaged ones too.
pub fn whole_records(log: &[u8]) -> usize
    ensures { result ≡ length (records log.now) }
{
    log.len() / RECORD_LEN
}

// The laws of specs/Laws.antt, as a contract: its proof hands them over.
pub fn laws_hold()
    ensures { Corner × AppendLaw × PrefixLaw × LastIgnored × CopiesLaw × OneRecovery × OneRecovered × OneAppend }
{}
