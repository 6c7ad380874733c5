// Byte and word reads of an image and what is lent (crate take_bytes), with every refusal. What is lent stays a parameter each, as in `mmu::write_byte`.
#![tactic(auto)]

ghost use Rattle.std.specs.Prelude.{◌≡◌, []};
ghost use Rattle.dispatch.specs.declared.Call.TheVariants.{ReadByte, ReadWord, ReadCgbLcdRam};
ghost use Rattle.memory.specs.World.{fixed};
ghost use Rattle.entry.specs.Entry.{given_of, read_entry};

pub mod block;

use numbers::Refusal;
use take_bytes::{byte_at, one_at};

// Every image, and every refusal.
fn plain_byte(
    image: &[u8],
    rom: &[u8],
    vram: &[u8],
    wram: &[u8],
    save: &[u8],
    sound: &[u8],
    index: u16,
) -> Result<u8, Refusal>
    ensures { given_of result ≡ read_entry (fixed rom.now sound.now) image.now vram.now wram.now save.now (ReadByte index) }
{
    take_bytes::taken(
        image,
        rom.len(),
        vram.len(),
        wram.len(),
        save.len(),
        sound.len(),
    )?;
    Ok(byte_at(image, rom, vram, wram, save, sound, index))
}

fn plain_word(
    image: &[u8],
    rom: &[u8],
    vram: &[u8],
    wram: &[u8],
    save: &[u8],
    sound: &[u8],
    index: u16,
) -> Result<u16, Refusal>
    ensures { given_of result ≡ read_entry (fixed rom.now sound.now) image.now vram.now wram.now save.now (ReadWord index) }
{
    take_bytes::taken(
        image,
        rom.len(),
        vram.len(),
        wram.len(),
        save.len(),
        sound.len(),
    )?;
    let low = byte_at(image, rom, vram, wram, save, sound, index);
    let above = index.wrapping_add(1);
    let high = byte_at(image, rom, vram, wram, save, sound, above);
    Ok(u16::from_le_bytes([low, high]))
}

// Where the tests that are enough pass, nothing refuses; what fails one is read plainly.
pub fn read_byte(
    image: &[u8],
    rom: &[u8],
    vram: &[u8],
    wram: &[u8],
    save: &[u8],
    sound: &[u8],
    index: u16,
) -> Result<u8, Refusal>
    ensures { given_of result ≡ read_entry (fixed rom.now sound.now) image.now vram.now wram.now save.now (ReadByte index) }
{
    if image::mapper_surely_fits(image, rom.len(), save.len()) {
        if image::rest_surely_fits(image, vram.len(), wram.len()) {
            if sound.len() == memory::SOUND_LEN {
                return Ok(one_at(image, rom, vram, wram, save, sound, index));
            }
        }
    }
    plain_byte(image, rom, vram, wram, save, sound, index)
}

// Low byte first; FFFF is followed by 0000.
pub fn read_word(
    image: &[u8],
    rom: &[u8],
    vram: &[u8],
    wram: &[u8],
    save: &[u8],
    sound: &[u8],
    index: u16,
) -> Result<u16, Refusal>
    ensures { given_of result ≡ read_entry (fixed rom.now sound.now) image.now vram.now wram.now save.now (ReadWord index) }
{
    if image::mapper_surely_fits(image, rom.len(), save.len()) {
        if image::rest_surely_fits(image, vram.len(), wram.len()) {
            if sound.len() == memory::SOUND_LEN {
                let low = byte_at(image, rom, vram, wram, save, sound, index);
                let above = index.wrapping_add(1);
                let high = byte_at(image, rom, vram, wram, save, sound, above);
                return Ok(u16::from_le_bytes([low, high]));
            }
        }
    }
    plain_word(image, rom, vram, wram, save, sound, index)
}

// Video memory by its bank.
pub fn read_cgb_lcd_ram(image: &[u8], vram: &[u8], index: u16, bank: u8) -> Result<u8, Refusal>
    ensures { given_of result ≡ read_entry (fixed [] []) image.now vram.now [] [] (ReadCgbLcdRam index bank) }
{
    image::taken(image)?;
    let banks = image::banks_at(image);
    refusals::vram_length_refused(banks.colour, vram.len())?;
    refusals::vram_refused(banks.colour, index, bank)?;
    Ok(mmu::regions::read_cgb_lcd_ram(vram, bank, index))
}
