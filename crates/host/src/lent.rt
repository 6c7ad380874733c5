// Entries to which memories are lent.
ghost use Rattle.dispatch.specs.declared.Call.TheVariants.{ReadByte, ReadWord, WriteByte, WriteWord, DoDmaTransfer, DoHdma};
ghost use Rattle.memory.specs.World.{fixed};
ghost use Rattle.entry.specs.EntryContracts.{holding, Enters, Reads, ReadsVram, FillsBlock, lending, Begins, Recovers, GivesUse, SetsUse};
ghost use Rattle.numbers.specs.Refusal.{number_given};

use crate::answers::hand;
use numbers::{Refusal, number_given};

pub fn pouch_read_byte(
    image: &[u8],
    rom: &[u8],
    vram: &[u8],
    wram: &[u8],
    save: &[u8],
    sound: &[u8],
    index: u16,
    value: &mut u8,
) -> u8
    ensures { Reads (fixed rom.now sound.now)
        image.now vram.now wram.now save.now (ReadByte index) result value.new }
{
    hand(
        quick_reads::read_byte(image, rom, vram, wram, save, sound, index),
        0,
        value,
    )
}

// Low byte first.
pub fn pouch_read_word(
    image: &[u8],
    rom: &[u8],
    vram: &[u8],
    wram: &[u8],
    save: &[u8],
    sound: &[u8],
    index: u16,
    value: &mut u16,
) -> u8
    ensures { Reads (fixed rom.now sound.now)
        image.now vram.now wram.now save.now (ReadWord index) result value.new }
{
    hand(
        quick_reads::read_word(image, rom, vram, wram, save, sound, index),
        0,
        value,
    )
}

// From `index` on, as many bytes as `out` has.
pub fn pouch_read_block(
    image: &[u8],
    rom: &[u8],
    vram: &[u8],
    wram: &[u8],
    save: &[u8],
    sound: &[u8],
    index: u16,
    out: &mut [u8],
) -> u8
    ensures { FillsBlock (fixed rom.now sound.now)
        image.now vram.now wram.now save.now out.old index result out.new }
{
    number_given(&quick_reads::block::read_block(image, rom, vram, wram, save, sound, index, out))
}

// Video memory by its bank.
pub fn pouch_read_cgb_lcd_ram(image: &[u8], vram: &[u8], index: u16, bank: u8, value: &mut u8) -> u8
    ensures { ReadsVram image.now vram.now index bank result value.new }
{
    hand(
        quick_reads::read_cgb_lcd_ram(image, vram, index, bank),
        0,
        value,
    )
}

pub fn pouch_write_byte(
    image: &mut [u8],
    rom: &[u8],
    vram: &mut [u8],
    wram: &mut [u8],
    save: &mut [u8],
    log: &mut [u8],
    sound: &[u8],
    index: u16,
    byte: u8,
) -> u8
    ensures { Enters (fixed rom.now sound.now)
        (holding image.old vram.old wram.old save.old log.old)
        (WriteByte index byte) result 0
        (holding image.new vram.new wram.new save.new log.new) }
{
    quick_writes::write_byte(image, rom, vram, wram, save, log, sound, index, byte)
}

// Low byte first.
pub fn pouch_write_word(
    image: &mut [u8],
    rom: &[u8],
    vram: &mut [u8],
    wram: &mut [u8],
    save: &mut [u8],
    log: &mut [u8],
    sound: &[u8],
    index: u16,
    word: u16,
) -> u8
    ensures { Enters (fixed rom.now sound.now)
        (holding image.old vram.old wram.old save.old log.old)
        (WriteWord index word) result 0
        (holding image.new vram.new wram.new save.new log.new) }
{
    quick_writes::write_word(image, rom, vram, wram, save, log, sound, index, word)
}

pub fn pouch_do_dma_transfer(
    image: &mut [u8],
    rom: &[u8],
    vram: &mut [u8],
    wram: &mut [u8],
    save: &mut [u8],
    log: &mut [u8],
    sound: &[u8],
    page: u8,
) -> u8
    ensures { Enters (fixed rom.now sound.now)
        (holding image.old vram.old wram.old save.old log.old)
        (DoDmaTransfer page) result 0
        (holding image.new vram.new wram.new save.new log.new) }
{
    number_given(&quick_writes::transfers::do_dma_transfer(
        image, rom, vram, wram, save, log, sound, page,
    ))
}

// One block of 16 bytes; the value is 36 when it is done.
pub fn pouch_do_hdma(
    image: &mut [u8],
    rom: &[u8],
    vram: &mut [u8],
    wram: &mut [u8],
    save: &mut [u8],
    log: &mut [u8],
    sound: &[u8],
    value: &mut u16,
) -> u8
    ensures { Enters (fixed rom.now sound.now)
        (holding image.old vram.old wram.old save.old log.old)
        DoHdma result value.new
        (holding image.new vram.new wram.new save.new log.new) }
{
    hand(
        quick_writes::transfers::do_hdma(image, rom, vram, wram, save, log, sound),
        0,
        value,
    )
}

// `kind` 0 RomOnly, 1 Mbc1, 2 Mbc2, 3 Mbc5; `banks` is N; `code` the RAM code: one by one, as C gives them.
pub fn pouch_fresh(
    image: &mut [u8],
    kind: u8,
    banks: u16,
    code: u8,
    colour: bool,
    rom: &[u8],
    vram: &mut [u8],
    wram: &mut [u8],
    save: &[u8],
    log: &[u8],
    sound: &[u8],
) -> u8
    ensures { Begins image.old (lending kind banks code colour
        rom.now vram.old wram.old save.now log.now sound.now)
        result image.new vram.new wram.new }
{
    number_given(&put_fresh(
        image, kind, banks, code, colour, rom, vram, wram, save, log, sound,
    ))
}

fn put_fresh(
    image: &mut [u8],
    kind: u8,
    banks: u16,
    code: u8,
    colour: bool,
    rom: &[u8],
    vram: &mut [u8],
    wram: &mut [u8],
    save: &[u8],
    log: &[u8],
    sound: &[u8],
) -> Result<(), Refusal>
    ensures { Begins image.old (lending kind banks code colour
        rom.now vram.old wram.old save.now log.now sound.now)
        (number_given result) image.new vram.new wram.new }
{
    if image.len() != image::LENGTH {
        return Err(Refusal::WrongLength);
    }
    // A match: `?` copies the state once more (bench/budgets.txt, fresh).
    match bus::fresh::fresh(kind, banks, code, colour, rom, vram, wram, save, log, sound) {
        Ok(memory) => {
            image::store(memory, image);
            Ok(())
        }
        Err(refusal) => Err(refusal),
    }
}

// The log's records over a save; neither needs an image.
pub fn pouch_recover(save: &mut [u8], log: &[u8]) -> u8
    ensures { Recovers save.old log.now result save.new }
{
    number_given(&savelog::recover(save, log))
}

// Bytes of the log that are used.
pub fn pouch_log_used(image: &[u8], value: &mut u16) -> u8
    ensures { GivesUse image.now result value.new }
{
    hand(quick_state::fields::log_used(image), 0, value)
}

// The log's use set, for a host that goes on from an older image with the log it has.
pub fn pouch_set_log_used(image: &mut [u8], used: u16) -> u8
    ensures { SetsUse image.old used result image.new }
{
    number_given(&quick_state::fields::set_log_used(image, used))
}
