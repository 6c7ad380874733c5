// What an entry of the C boundary does: decode the image, make the call, encode the state (specs/Entry.antt, specs/Host.antt). It is a definition:
// the crates quick_reads, quick_writes, quick_state and quick_screen do the same on the image itself, crate host has the entries, host_c exports them.
#![tactic(auto)]

ghost use Rattle.entry.specs.LentLess.{LentLess};
ghost use Rattle.entry.specs.One.{OneEntry};
ghost use Rattle.entry.specs.Refused.{RefusedEntry};

// One of the eight numbers of the screen that the host sets, with its value (crate lcd, `Lcd`).
#[derive(Clone, Copy)]
pub enum HostNumber {
    Disabled(bool),
    Line(u8),
    Signal(u8),
    Mode(u8),
    Delay(i32),
    Counter(i32),
    Aux(i32),
    Window(i32),
}

// What holds of the contracts of these entries (specs/EntryContracts.antt), as a contract: its proof hands the theorems over, so that to weaken or drop
// one of them, or what it speaks of, fails the crate.
pub fn entries_hold()
    ensures { OneEntry × RefusedEntry × LentLess }
{}
