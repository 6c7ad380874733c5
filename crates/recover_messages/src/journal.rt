// The records of a journal, read in parts: how much of them was written, the first damaged one, and recovery by them. Journals of versions before 3.0
// have records of three bytes.
ghost use Rattle.std.specs.Prelude.{true, ◌≡◌, ◌+◌, ◌*◌, ◌/◌, ◌%◌, ◌≤◌, ◌<◌, length};
ghost use Rattle.numbers.specs.Refusal.{number_given};
ghost use Rattle.savelog.specs.Log.{width_of, records_by, save_lengths, one_of, outcome};
ghost use Rattle.savelog.specs.declared.Form.TheVariants.{Three};
ghost use Rattle.recover_messages.specs.Journal.{unread, scanned, Bounded, byte_scanned, kept_of, sound_first, journal_limit};
ghost use Rattle.recover_messages.specs.Journal.{recovery_by, part_limit, PartsLaw, WholeLaw, ZerosLaw, KeptLaw, PresentLaw, OldLaw};

use numbers::Refusal;
use savelog::{Form, OLD_RECORD_LEN, RECORD_LEN};

// Of the bytes so far: how many, and where the last one that is not 0 ends. No fact is held of the two: specs/Journal.antt goes on from any two numbers
// (`byte_scanned`), and `message::damage` asks only how many.
#[derive(Clone, Copy, PartialEq, Eq)]
pub struct Scan {
    pub len: usize,
    pub end: usize,
}

// A journal by the form of its records and the scan of all its bytes.
#[derive(Clone, Copy)]
pub struct Journal {
    pub form: Form,
    pub scan: Scan,
    ghost within: { (scan.end ≤ scan.len) × (scan.len ≤ journal_limit) },
}

// The most bytes of a journal before its last part. No file has as many.
pub const LIMIT: usize = 4611686018427387904;

// The most records of a part: as many as the longest log of the present form has.
pub const PART_RECORDS: usize = 16383;

// The most bytes of a part.
pub const PART: usize = PART_RECORDS * RECORD_LEN;

// Before the first byte.
pub fn unread() -> Scan
    ensures { (result ≡ unread) × Bounded result }
{
    Scan { len: 0, end: 0 }
}

// After one byte more.
fn after(s: Scan, b: u8) -> Scan
    requires { s.len + 1 < 18446744073709551616 }
    ensures { result ≡ byte_scanned s b }
{
    let len = s.len + 1;
    let end = if b == 0 { s.end } else { len };
    Scan { len, end }
}

// After one part more.
pub fn scanned(s: Scan, part: &[u8]) -> Scan
    requires { Bounded s × (s.len ≤ journal_limit) }
    ensures { (result ≡ scanned s part.now) × (Bounded result × (result.len ≡ s.len + length part.now)) }
{
    let mut next = s;
    for b in part {
        next = after(next, *b);
    }
    next
}

// The whole records of n bytes, how many bytes so many records have, and what is left of n bytes behind the whole ones.
pub fn records_in(form: Form, n: usize) -> usize
    ensures { (result ≡ n / width_of form) × (result * 3 ≤ n) }
{
    n / form.len()
}

pub fn bytes_of(form: Form, n: usize) -> usize
    requires { n < journal_limit }
    ensures { result ≡ n * width_of form }
{
    n * form.len()
}

pub fn rest_of(form: Form, n: usize) -> usize
    ensures { (result ≡ n % width_of form) × (result ≤ n) }
{
    n % form.len()
}

impl Journal {
    // How much of it was written. Zeros at the end, where a record would begin, are bytes that never arrived; and a record before them that ends in 0 may have
    // such bytes too.
    pub fn kept(self) -> usize
        ensures { (result ≡ kept_of self.form self.scan) × (result ≤ self.scan.len) }
    {
        let form = self.form;
        let s = self.scan;
        let up = s.end + form.len() - 1;
        let next = bytes_of(form, records_in(form, up));
        if next < s.len {
            bytes_of(form, records_in(form, s.end))
        } else {
            s.len
        }
    }
}

// How many records stand before the first damaged one; all of them, where none is.
pub fn sound_records(form: Form, part: &[u8], ram: usize) -> usize
    ensures { (result ≡ sound_first ram (records_by form part.now)) × (result ≤ length (records_by form part.now)) }
{
    let len = form.len();
    let count = part.len() / len;
    for n in 0..count {
        let rec = savelog::record_at(form, part, n * len);
        if !savelog::sound_record(rec, ram) {
            return n;
        }
    }
    count
}

// Recovery by old records: they are converted, and what that gives is played. A refusal leaves the save.
// That the save has a length that saves have is a fact of a lent slice: `savelog::recover` takes one, so a struct over it would be taken apart at each call.
fn recover_old(save: &mut [u8], part: &[u8]) -> Result<(), Refusal>
    requires { (one_of (length save.old) save_lengths ≡ true) × (length part.now ≤ part_limit Three) }
    ensures { outcome (number_given result) save.new ≡ recovery_by Three save.old part.now }
{
    let mut new = [0u8; PART];
    let len = savelog::to_new(part, &mut new)?;
    savelog::recover(save, &new[..len as usize])
}

// Recovery by the records of a form.
pub fn recover(form: Form, save: &mut [u8], part: &[u8]) -> Result<(), Refusal>
    requires { (one_of (length save.old) save_lengths ≡ true) × (length part.now ≤ part_limit form) }
    ensures { outcome (number_given result) save.new ≡ recovery_by form save.old part.now }
{
    match form {
        Form::Three => recover_old(save, part),
        Form::Four => savelog::recover(save, part),
    }
}

// The laws of specs/Journal.antt, as a contract: its proof hands them over.
pub fn laws_hold()
    ensures { PartsLaw × WholeLaw × ZerosLaw × KeptLaw × PresentLaw × OldLaw }
{}
