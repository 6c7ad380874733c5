// The numbers that a call gives back, as document 01 lists them: in code a call answers `Ok`, or `Err` with a `Refusal`. specs/Numbers.antt has the table for
// the contracts, specs/Refusal.antt the number of each case.
#![tactic(auto)]

ghost use Rattle.std.specs.Prelude.{◌≡◌};
ghost use Rattle.numbers.specs.One.{OneAnswer};
ghost use Rattle.numbers.specs.Refusal.{refusal_number, owed_number, number_given, write_number};

// Done.
pub const DONE: u8 = 0;

// What refuses a call, with its number.
#[derive(Clone, Copy, Debug, PartialEq, Eq)]
pub enum Refusal {
    // The log has no room for what this write may store.
    NoRoom = 2,
    // The cartridge description or the state is out of range.
    OutOfRange = 3,
    // A lent memory has a length other than it must have.
    WrongLength = 4,
    // More than 65,536 cycles.
    TooManyCycles = 5,
    // Recovery or a converter met a whole record that is damaged, or a converter an address that does not fit.
    Damaged = 6,
    // A button, bit, interrupt, bank or index outside.
    Outside = 7,
}

// What a write that is done leaves to the host.
#[derive(Clone, Copy, Debug, PartialEq, Eq)]
pub enum Owed {
    Nothing = 0,
    // The sound write.
    Sound = 1,
}

impl Refusal {
    // No `From`, as that of `Owed` below: document 01's number is one of the things that an answer says, and a call of it reads as it does in the contracts.
    pub fn number(self) -> u8
        ensures { result ≡ refusal_number self }
    {
        self as u8
    }
}

impl Owed {
    pub fn number(self) -> u8
        ensures { result ≡ owed_number self }
    {
        self as u8 // DONE, or 1
    }
}

// The number of an answer.
pub fn number_given<T>(answer: &Result<T, Refusal>) -> u8
    ensures { result ≡ number_given answer.now }
{
    match answer {
        Ok(_) => DONE,
        Err(refusal) => refusal.number(),
    }
}

// The number of a write.
pub fn write_number(answer: Result<Owed, Refusal>) -> u8
    ensures { result ≡ write_number answer }
{
    match answer {
        Ok(owed) => owed.number(),
        Err(refusal) => refusal.number(),
    }
}

// That a number tells an answer (specs/One.antt), as a contract: its proof hands it over.
pub fn one_answer()
    ensures { OneAnswer }
{}
