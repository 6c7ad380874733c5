// The calls that write a byte or a word to what is lent. What refuses them is asked of the state and the lengths before anything is touched.
// A byte's and a word's write stay apart: the test for room, the write within and what is owed are other functions, so a function for both would take three
// closures. What is lent stays a parameter each, as in `mmu::write_byte`.
#![tactic(auto, using(refusals::proofs::Answers::exit, refusals::proofs::Answers::refuses), unfolding(bus::specs::Calls::unless, refusals::specs::Refusal::or_else))]

ghost use Rattle.memory.specs.World.{world, fixed};
ghost use Rattle.bus.specs.Calls.{buffers};
ghost use Rattle.write_calls.specs.Writes.{WritesByte, WritesWord, OneWritten};

use memory::Memory;
use numbers::{Owed, Refusal};
use refusals::Lengths;

// The state after the call, and what it leaves to the host.
#[derive(Clone, Copy)]
pub struct Wrote {
    pub memory: Memory,
    pub owed: Owed,
}

pub fn write_byte(
    memory: Memory,
    rom: &[u8],
    vram: &mut [u8],
    wram: &mut [u8],
    save: &mut [u8],
    log: &mut [u8],
    sound: &[u8],
    index: u16,
    value: u8,
) -> Result<Wrote, Refusal>
    ensures { WritesByte (fixed rom.now sound.now)
        (world memory vram.old wram.old save.old log.old) index value result
        (buffers vram.new wram.new save.new log.new) }
{
    let lens = Lengths::of(rom, vram, wram, save, sound);
    refusals::write_refused(memory, lens, log.len())?;
    refusals::byte_room(memory.core.used, log.len(), index)?;
    let next = mmu::write_byte(2, memory, rom, vram, wram, save, log, sound, index, value);
    let owed = refusals::byte_owed(index);
    Ok(Wrote { memory: next, owed })
}

// Low byte first; the index of the high byte wraps.
pub fn write_word(
    memory: Memory,
    rom: &[u8],
    vram: &mut [u8],
    wram: &mut [u8],
    save: &mut [u8],
    log: &mut [u8],
    sound: &[u8],
    index: u16,
    value: u16,
) -> Result<Wrote, Refusal>
    ensures { WritesWord (fixed rom.now sound.now)
        (world memory vram.old wram.old save.old log.old) index value result
        (buffers vram.new wram.new save.new log.new) }
{
    let lens = Lengths::of(rom, vram, wram, save, sound);
    refusals::write_refused(memory, lens, log.len())?;
    refusals::word_room(memory.core.used, log.len(), index)?;
    let next = mmu::write_word(memory, rom, vram, wram, save, log, sound, index, value);
    let owed = refusals::word_owed(index);
    Ok(Wrote { memory: next, owed })
}

// That no second outcome fits these contracts, as a contract: its proof hands it over.
pub fn one_written()
    ensures { OneWritten }
{}
