// A fresh bus over lent memories: the Rust's `from_cartridge`. Video and work memory are zeroed; save and log bytes are kept, log use is 0.
ghost use Rattle.std.specs.Prelude.{◌≡◌, List, ℕ, length};
ghost use Rattle.bus.specs.Fresh.{begun_by, Starts, OneStart};

use mbc::Mapper;
use memory::Memory;
use numbers::Refusal;
use refusals::Lengths;

// `kind` 0 RomOnly, 1 Mbc1, 2 Mbc2, 3 Mbc5; `banks` is N; `code` the RAM code: one by one, as C gives them.
// The description is refused first, then a length that it does not ask for.
// What is lent stays a parameter each, as in `mmu::write_byte`.
pub fn fresh(
    kind: u8,
    banks: u16,
    code: u8,
    colour: bool,
    rom: &[u8],
    vram: &mut [u8],
    wram: &mut [u8],
    save: &[u8],
    log: &[u8],
    sound: &[u8],
) -> Result<Memory, Refusal>
    ensures { Starts kind banks code colour (length rom.now) vram.old wram.old
        (length save.now) (length log.now) (length sound.now) result (vram.new, wram.new) }
{
    let (cartridge, mapper) = Mapper::fresh(kind, banks, code)?;
    let memory = memory::new(cartridge, mapper, colour);
    let lens = Lengths::of(rom, vram, wram, save, sound);
    refusals::lent_refused(memory.core, lens, log.len())?;
    vram.fill(0);
    wram.fill(0);
    Ok(memory)
}

// The state that a fresh start leaves: its own, or the all-zero state where it is refused, which every call refuses by 3.
pub fn state_after(start: Result<Memory, Refusal>) -> Memory
    ensures { (v w : List ℕ) → result ≡ (begun_by start v w).state }
{
    start.unwrap_or(memory::zero())
}

// That no second outcome fits this contract, as a contract: its proof hands it over.
pub fn one_start()
    ensures { OneStart }
{}
