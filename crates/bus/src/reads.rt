// The calls that read what is lent. Reads change nothing: they take the state and the memories for reading alone.
// A byte's and a word's read stay apart: each is the test, one line, and the read within, which is another function.
// What is lent stays a parameter each, as in `mmu::write_byte`.
ghost use Rattle.std.specs.Prelude.{[], ◌≡◌};
ghost use Rattle.memory.specs.World.{world, fixed};
ghost use Rattle.refusals.specs.Answers.{byte_of, word_of};
ghost use Rattle.bus.specs.Calls.{read_byte_call, read_word_call, read_cgb_lcd_ram_call};

use memory::Memory;
use numbers::Refusal;
use refusals::Lengths;

pub fn read_byte(
    memory: Memory,
    rom: &[u8],
    vram: &[u8],
    wram: &[u8],
    save: &[u8],
    sound: &[u8],
    index: u16,
) -> Result<u8, Refusal>
    ensures { byte_of result ≡ read_byte_call (fixed rom.now sound.now) (world memory vram.now wram.now save.now []) index }
{
    refusals::read_refused(memory, Lengths::of(rom, vram, wram, save, sound))?;
    Ok(mmu::read_byte(memory, rom, vram, wram, save, sound, index))
}

pub fn read_word(
    memory: Memory,
    rom: &[u8],
    vram: &[u8],
    wram: &[u8],
    save: &[u8],
    sound: &[u8],
    index: u16,
) -> Result<u16, Refusal>
    ensures { word_of result ≡ read_word_call (fixed rom.now sound.now) (world memory vram.now wram.now save.now []) index }
{
    refusals::read_refused(memory, Lengths::of(rom, vram, wram, save, sound))?;
    Ok(mmu::read_word(memory, rom, vram, wram, save, sound, index))
}

// Video memory by its bank.
pub fn read_cgb_lcd_ram(memory: Memory, vram: &[u8], index: u16, bank: u8) -> Result<u8, Refusal>
    ensures { byte_of result ≡ read_cgb_lcd_ram_call (world memory vram.now [] [] []) index bank }
{
    let colour = memory.core.banks.colour;
    refusals::refused(memory)?;
    refusals::vram_length_refused(colour, vram.len())?;
    refusals::vram_refused(colour, index, bank)?;
    Ok(mmu::regions::read_cgb_lcd_ram(vram, bank, index))
}
