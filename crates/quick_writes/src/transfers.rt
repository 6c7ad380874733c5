// The transfers by call.
ghost use Rattle.std.specs.Prelude.{◌≡◌};
ghost use Rattle.std.specs.Result.{result_unwrap_or};
ghost use Rattle.dispatch.specs.declared.Call.TheVariants.{DoDmaTransfer, DoHdma};
ghost use Rattle.memory.specs.World.{fixed};
ghost use Rattle.entry.specs.Entry.{left, world_entry};
ghost use Rattle.numbers.specs.Refusal.{number_given};

use crate::taken;
use numbers::Refusal;

pub fn do_dma_transfer(
    image: &mut [u8],
    rom: &[u8],
    vram: &mut [u8],
    wram: &mut [u8],
    save: &mut [u8],
    log: &mut [u8],
    sound: &[u8],
    page: u8,
) -> Result<(), Refusal>
    ensures { left (number_given result) 0 image.new vram.new wram.new save.new log.new ≡ world_entry (fixed rom.now sound.now) image.old vram.old wram.old save.old log.old (DoDmaTransfer page) }
{
    taken(
        image,
        rom.len(),
        vram.len(),
        wram.len(),
        save.len(),
        sound.len(),
        log.len(),
    )?;
    move_bytes::move_oam(image, rom, vram, wram, save, sound, page);
    Ok(())
}

// One block of 16 bytes; its answer is 36, whether HDMA is on or off.
pub fn do_hdma(
    image: &mut [u8],
    rom: &[u8],
    vram: &mut [u8],
    wram: &mut [u8],
    save: &mut [u8],
    log: &mut [u8],
    sound: &[u8],
) -> Result<u16, Refusal>
    ensures { left (number_given result) (result_unwrap_or result 0) image.new vram.new wram.new save.new log.new ≡ world_entry (fixed rom.now sound.now) image.old vram.old wram.old save.old log.old DoHdma }
{
    taken(
        image,
        rom.len(),
        vram.len(),
        wram.len(),
        save.len(),
        sound.len(),
        log.len(),
    )?;
    move_bytes::move_block(image, rom, vram, wram, save, sound);
    Ok(36)
}
