// The transfers that a host starts: OAM DMA, and one block of HDMA. What refuses them is asked of the state and the lengths before anything is touched.
// What is lent stays a parameter each, as in `mmu::write_byte`.
#![tactic(auto, using(refusals::proofs::Answers::exit, refusals::proofs::Answers::refuses), unfolding(bus::specs::Calls::unless))]

ghost use Rattle.memory.specs.World.{world, fixed};
ghost use Rattle.bus.specs.Calls.{buffers};
ghost use Rattle.transfer_calls.specs.Transfers.{Transfers, Moves, OneMoved};

use memory::Memory;
use numbers::Refusal;
use refusals::Lengths;

// The state after the call, and the answer of do_hdma.
#[derive(Clone, Copy)]
pub struct Moved {
    pub memory: Memory,
    pub cycles: u8,
}

pub fn do_dma_transfer(
    memory: Memory,
    rom: &[u8],
    vram: &mut [u8],
    wram: &mut [u8],
    save: &mut [u8],
    log: &mut [u8],
    sound: &[u8],
    page: u8,
) -> Result<Memory, Refusal>
    ensures { Transfers (fixed rom.now sound.now)
        (world memory vram.old wram.old save.old log.old) page result
        (buffers vram.new wram.new save.new log.new) }
{
    let lens = Lengths::of(rom, vram, wram, save, sound);
    refusals::write_refused(memory, lens, log.len())?;
    let next = mmu::do_oam_dma(memory, rom, vram, wram, save, log, sound, page);
    Ok(next)
}

// One block of 16 bytes; its answer is 36, whether HDMA is on or off.
pub fn do_hdma(
    memory: Memory,
    rom: &[u8],
    vram: &mut [u8],
    wram: &mut [u8],
    save: &mut [u8],
    log: &mut [u8],
    sound: &[u8],
) -> Result<Moved, Refusal>
    ensures { Moves (fixed rom.now sound.now)
        (world memory vram.old wram.old save.old log.old) result
        (buffers vram.new wram.new save.new log.new) }
{
    let lens = Lengths::of(rom, vram, wram, save, sound);
    refusals::write_refused(memory, lens, log.len())?;
    let next = mmu::do_hdma(memory, rom, vram, wram, save, log, sound);
    Ok(Moved {
        memory: next,
        cycles: 36,
    })
}

// That no second outcome fits these contracts, as a contract: its proof hands it over.
pub fn one_moved()
    ensures { OneMoved }
{}
