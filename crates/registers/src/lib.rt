// The bus by value: what its registers FF00..FFFF read and store, and the Rust's functions on `Memory` that touch the state alone.
// Each takes the state apart, calls the crate that knows the rule, and puts the state together again.
#![tactic(auto)]

ghost use Rattle.std.specs.Prelude.{◌≡◌};
ghost use Rattle.registers.specs.State.{loaded, stored};

pub mod colour;
pub mod interrupts;
pub mod page;
mod register;
pub mod screen;
pub mod transfers;

use memory::Memory;
pub use register::{Register, byte_as, register_of};

// FF00 + at, raw.
pub fn load(memory: Memory, at: u8) -> u8
    ensures { result ≡ loaded memory at }
{
    memory.page[at as usize]
}

pub fn store(mut memory: Memory, at: u8, value: u8) -> Memory
    ensures { result ≡ stored memory at value }
{
    memory.page[at as usize] = value;
    memory
}
