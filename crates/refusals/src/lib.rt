// When a call is refused, and by which number: `Ok`, or `Err` with the refusal that is due first. Lengths come as numbers, so that a call asks before it
// touches what is lent. What asks for one thing is a test, an Ok and an Err: std makes no Result of a bool, and one function for all would be just this.
#![tactic(auto)]

ghost use Rattle.std.specs.Prelude.{◌≡◌};
ghost use Rattle.numbers.specs.Refusal.{number_given, owed_number};
ghost use Rattle.memory.specs.declared.Memory.{Memory};
ghost use Rattle.refusals.specs.Answers.{done_of, changed};
ghost use Rattle.refusals.specs.Refusal.{lengths_of, state_refused, refused_state, use_refused, lengths_are, lengths_fit, lengths_refused, log_refused, lent_refused, read_refused, write_refused, in_save, in_sound, next_index, either_in_save, byte_room, word_room, byte_owed, word_owed, raw_refused, cycles_refused, vram_length_refused, has_bank, vram_refused};

use mbc::{Cartridge, Mapper};
use memory::{Core, Memory, Region};
use numbers::{Owed, Refusal};

// The lengths of what is lent, but for the log.
#[derive(Clone, Copy)]
pub struct Lengths {
    pub rom: usize,
    pub vram: usize,
    pub wram: usize,
    pub save: usize,
    pub sound: usize,
}

impl Lengths {
    pub fn of(rom: &[u8], vram: &[u8], wram: &[u8], save: &[u8], sound: &[u8]) -> Lengths
        ensures { result ≡ lengths_of rom.now vram.now wram.now save.now sound.now }
    {
        Lengths {
            rom: rom.len(),
            vram: vram.len(),
            wram: wram.len(),
            save: save.len(),
            sound: sound.len(),
        }
    }
}

#[tactic(auto, unfolding(crate::specs::Refusal::state_refused))]
pub fn state_refused(memory: Memory, limit: usize) -> Result<(), Refusal>
    ensures { number_given result ≡ state_refused memory limit }
{
    if memory::in_range(memory, limit) {
        return Ok(());
    }
    Err(Refusal::OutOfRange)
}

// A call on the state alone: no log is lent.
pub fn refused(memory: Memory) -> Result<(), Refusal>
    ensures { number_given result ≡ refused_state memory }
{
    state_refused(memory, savelog::LOG_LIMIT)
}

// A call that changes the state alone: refused by 3, else the change.
#[tactic(auto, using(crate::proofs::Answers::exit, crate::proofs::Answers::refuses), unfolding(crate::specs::Answers::changed))]
pub fn on_state<F: FnOnce(Memory) -> Memory>(memory: Memory, change: F) -> Result<Memory, Refusal>
    requires { F.IsAlwaysCallable change }
    ensures { (next : Memory) → ((m : Memory) → F.post change memory m → m ≡ next)
        → done_of memory result ≡ changed (refused_state memory) memory next }
{
    refused(memory)?;
    Ok(change(memory))
}

// Where the rest of the state is known to be in range: a log's use within the lent log.
#[tactic(auto, unfolding(crate::specs::Refusal::use_refused))]
pub fn use_refused(used: u16, log: usize) -> Result<(), Refusal>
    ensures { number_given result ≡ use_refused used log }
{
    if savelog::use_in_range(used, log) {
        return Ok(());
    }
    Err(Refusal::OutOfRange)
}

// The lent lengths, by what they follow.
pub fn lengths_are(colour: bool, cartridge: Cartridge, mapper: Mapper, lens: Lengths) -> bool
    ensures { result ≡ lengths_are colour cartridge mapper lens.rom lens.vram lens.wram lens.save lens.sound }
{
    lens.rom == cartridge.rom_len()
        && lens.vram == memory::vram_len(colour)
        && lens.wram == memory::wram_len(colour)
        && lens.save == mapper.ram_len(cartridge)
        && lens.sound == memory::SOUND_LEN
}

#[tactic(auto, unfolding(crate::specs::Refusal::lengths_fit))]
fn lengths_fit(core: Core, lens: Lengths) -> bool
    ensures { result ≡ lengths_fit core lens.rom lens.vram lens.wram lens.save lens.sound }
{
    lengths_are(core.banks.colour, core.cartridge, core.mapper, lens)
}

#[tactic(auto, unfolding(crate::specs::Refusal::lengths_refused))]
pub fn lengths_refused(core: Core, lens: Lengths) -> Result<(), Refusal>
    ensures { number_given result ≡ lengths_refused core lens.rom lens.vram lens.wram lens.save lens.sound }
{
    if lengths_fit(core, lens) {
        return Ok(());
    }
    Err(Refusal::WrongLength)
}

// A call that reads what is lent.
#[tactic(auto, using(crate::proofs::Answers::exit, crate::proofs::Answers::refuses), unfolding(crate::specs::Refusal::read_refused, crate::specs::Refusal::or_else))]
pub fn read_refused(memory: Memory, lens: Lengths) -> Result<(), Refusal>
    ensures { number_given result ≡ read_refused memory lens.rom lens.vram lens.wram lens.save lens.sound }
{
    state_refused(memory, savelog::LOG_LIMIT)?;
    lengths_refused(memory.core, lens)
}

#[tactic(auto, unfolding(crate::specs::Refusal::log_refused))]
pub fn log_refused(log: usize) -> Result<(), Refusal>
    ensures { number_given result ≡ log_refused log }
{
    if log <= savelog::LOG_LIMIT {
        return Ok(());
    }
    Err(Refusal::WrongLength)
}

// What is lent to a call that writes, the log among it.
#[tactic(auto, using(crate::proofs::Answers::exit, crate::proofs::Answers::refuses), unfolding(crate::specs::Refusal::lent_refused, crate::specs::Refusal::or_else))]
pub fn lent_refused(core: Core, lens: Lengths, log: usize) -> Result<(), Refusal>
    ensures { number_given result ≡ lent_refused core lens.rom lens.vram lens.wram lens.save lens.sound log }
{
    lengths_refused(core, lens)?;
    log_refused(log)
}

// A call that writes what is lent.
#[tactic(auto, using(crate::proofs::Answers::exit, crate::proofs::Answers::refuses), unfolding(crate::specs::Refusal::write_refused, crate::specs::Refusal::or_else))]
pub fn write_refused(memory: Memory, lens: Lengths, log: usize) -> Result<(), Refusal>
    ensures { number_given result ≡ write_refused memory lens.rom lens.vram lens.wram lens.save lens.sound log }
{
    state_refused(memory, log)?;
    lent_refused(memory.core, lens, log)
}

// The save's window.
#[tactic(auto, unfolding(crate::specs::Refusal::in_save))]
pub fn in_save(index: u16) -> bool
    ensures { result ≡ in_save index }
{
    matches!(memory::region_of(index), Region::Save)
}

// The sound window.
#[tactic(auto, unfolding(crate::specs::Refusal::in_sound))]
fn in_sound(index: u16) -> bool
    ensures { result ≡ in_sound index }
{
    0xFF10 <= index && index < 0xFF40
}

// The index of a word's high byte.
pub fn next_index(index: u16) -> u16
    ensures { result ≡ next_index index }
{
    index.wrapping_add(1)
}

// byte_room and word_room stay apart: three lines each, and what they have in common is `savelog::full`.
#[tactic(auto, unfolding(crate::specs::Refusal::byte_room))]
pub fn byte_room(used: u16, log: usize, index: u16) -> Result<(), Refusal>
    ensures { number_given result ≡ byte_room used log index }
{
    if in_save(index) && savelog::full(log, used, 1) {
        return Err(Refusal::NoRoom);
    }
    Ok(())
}

#[tactic(auto, unfolding(crate::specs::Refusal::either_in_save))]
fn either_in_save(index: u16) -> bool
    ensures { result ≡ either_in_save index }
{
    in_save(index) || in_save(next_index(index))
}

#[tactic(auto, unfolding(crate::specs::Refusal::word_room))]
pub fn word_room(used: u16, log: usize, index: u16) -> Result<(), Refusal>
    ensures { number_given result ≡ word_room used log index }
{
    if either_in_save(index) && savelog::full(log, used, 2) {
        return Err(Refusal::NoRoom);
    }
    Ok(())
}

// What a byte write that is done leaves to the host.
#[tactic(auto, unfolding(crate::specs::Refusal::byte_owed))]
pub fn byte_owed(index: u16) -> Owed
    ensures { owed_number result ≡ byte_owed index }
{
    if in_sound(index) {
        return Owed::Sound;
    }
    Owed::Nothing
}

// What a word write that is done leaves to the host.
#[tactic(auto, unfolding(crate::specs::Refusal::word_owed, crate::specs::Refusal::byte_owed))]
pub fn word_owed(index: u16) -> Owed
    ensures { owed_number result ≡ word_owed index }
{
    if in_sound(index) {
        return Owed::Sound;
    }
    byte_owed(next_index(index))
}

#[tactic(auto, unfolding(crate::specs::Refusal::raw_refused))]
pub fn raw_refused(index: u16) -> Result<(), Refusal>
    ensures { number_given result ≡ raw_refused index }
{
    if index < memory::PAGE_START {
        return Err(Refusal::Outside);
    }
    Ok(())
}

#[tactic(auto, unfolding(crate::specs::Refusal::cycles_refused))]
pub fn cycles_refused(cycles: u32) -> Result<(), Refusal>
    ensures { number_given result ≡ cycles_refused cycles }
{
    if 65536 < cycles {
        return Err(Refusal::TooManyCycles);
    }
    Ok(())
}

#[tactic(auto, unfolding(crate::specs::Refusal::vram_length_refused))]
pub fn vram_length_refused(colour: bool, vram: usize) -> Result<(), Refusal>
    ensures { number_given result ≡ vram_length_refused colour vram }
{
    if vram == memory::vram_len(colour) {
        return Ok(());
    }
    Err(Refusal::WrongLength)
}

// A bank of video memory that the machine has.
#[tactic(auto, unfolding(crate::specs::Refusal::has_bank))]
fn has_bank(colour: bool, bank: u8) -> bool
    ensures { result ≡ has_bank colour bank }
{
    match bank {
        0 => true,
        1 => colour,
        _ => false,
    }
}

#[tactic(auto, unfolding(crate::specs::Refusal::vram_refused))]
pub fn vram_refused(colour: bool, index: u16, bank: u8) -> Result<(), Refusal>
    ensures { number_given result ≡ vram_refused colour index bank }
{
    if has_bank(colour, bank) && memory::VRAM_START <= index && index < memory::SAVE_START {
        return Ok(());
    }
    Err(Refusal::Outside)
}
