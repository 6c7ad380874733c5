// The exports on a state image and what is lent beside it.
ghost use Rattle.dispatch.specs.declared.Call.TheVariants.{ReadByte, ReadWord, WriteByte, WriteWord, DoDmaTransfer, DoHdma};
ghost use Rattle.memory.specs.World.{fixed};
ghost use Rattle.entry.specs.EntryContracts.{holding, Enters, Reads, ReadsVram, FillsBlock, lending, Begins, Recovers, GivesUse, SetsUse};

#[unsafe(no_mangle)]
pub extern "C" fn pouch_read_byte(
    image: &[u8],
    rom: &[u8],
    vram: &[u8],
    wram: &[u8],
    save: &[u8],
    sound: &[u8],
    index: u16,
    value: &mut u8,
) -> u8
    ensures { Reads (fixed rom.now sound.now)
        image.now vram.now wram.now save.now (ReadByte index) result value.new }
{
    host::lent::pouch_read_byte(image, rom, vram, wram, save, sound, index, value)
}

#[unsafe(no_mangle)]
pub extern "C" fn pouch_read_word(
    image: &[u8],
    rom: &[u8],
    vram: &[u8],
    wram: &[u8],
    save: &[u8],
    sound: &[u8],
    index: u16,
    value: &mut u16,
) -> u8
    ensures { Reads (fixed rom.now sound.now)
        image.now vram.now wram.now save.now (ReadWord index) result value.new }
{
    host::lent::pouch_read_word(image, rom, vram, wram, save, sound, index, value)
}

#[unsafe(no_mangle)]
pub extern "C" fn pouch_read_block(
    image: &[u8],
    rom: &[u8],
    vram: &[u8],
    wram: &[u8],
    save: &[u8],
    sound: &[u8],
    index: u16,
    out: &mut [u8],
) -> u8
    ensures { FillsBlock (fixed rom.now sound.now)
        image.now vram.now wram.now save.now out.old index result out.new }
{
    host::lent::pouch_read_block(image, rom, vram, wram, save, sound, index, out)
}

#[unsafe(no_mangle)]
pub extern "C" fn pouch_read_cgb_lcd_ram(
    image: &[u8],
    vram: &[u8],
    index: u16,
    bank: u8,
    value: &mut u8,
) -> u8
    ensures { ReadsVram image.now vram.now index bank result value.new }
{
    host::lent::pouch_read_cgb_lcd_ram(image, vram, index, bank, value)
}

#[unsafe(no_mangle)]
pub extern "C" fn pouch_write_byte(
    image: &mut [u8],
    rom: &[u8],
    vram: &mut [u8],
    wram: &mut [u8],
    save: &mut [u8],
    log: &mut [u8],
    sound: &[u8],
    index: u16,
    byte: u8,
) -> u8
    ensures { Enters (fixed rom.now sound.now)
        (holding image.old vram.old wram.old save.old log.old)
        (WriteByte index byte) result 0
        (holding image.new vram.new wram.new save.new log.new) }
{
    host::lent::pouch_write_byte(image, rom, vram, wram, save, log, sound, index, byte)
}

#[unsafe(no_mangle)]
pub extern "C" fn pouch_write_word(
    image: &mut [u8],
    rom: &[u8],
    vram: &mut [u8],
    wram: &mut [u8],
    save: &mut [u8],
    log: &mut [u8],
    sound: &[u8],
    index: u16,
    word: u16,
) -> u8
    ensures { Enters (fixed rom.now sound.now)
        (holding image.old vram.old wram.old save.old log.old)
        (WriteWord index word) result 0
        (holding image.new vram.new wram.new save.new log.new) }
{
    host::lent::pouch_write_word(image, rom, vram, wram, save, log, sound, index, word)
}

#[unsafe(no_mangle)]
pub extern "C" fn pouch_do_dma_transfer(
    image: &mut [u8],
    rom: &[u8],
    vram: &mut [u8],
    wram: &mut [u8],
    save: &mut [u8],
    log: &mut [u8],
    sound: &[u8],
    page: u8,
) -> u8
    ensures { Enters (fixed rom.now sound.now)
        (holding image.old vram.old wram.old save.old log.old)
        (DoDmaTransfer page) result 0
        (holding image.new vram.new wram.new save.new log.new) }
{
    host::lent::pouch_do_dma_transfer(image, rom, vram, wram, save, log, sound, page)
}

#[unsafe(no_mangle)]
pub extern "C" fn pouch_do_hdma(
    image: &mut [u8],
    rom: &[u8],
    vram: &mut [u8],
    wram: &mut [u8],
    save: &mut [u8],
    log: &mut [u8],
    sound: &[u8],
    value: &mut u16,
) -> u8
    ensures { Enters (fixed rom.now sound.now)
        (holding image.old vram.old wram.old save.old log.old)
        DoHdma result value.new
        (holding image.new vram.new wram.new save.new log.new) }
{
    host::lent::pouch_do_hdma(image, rom, vram, wram, save, log, sound, value)
}

#[unsafe(no_mangle)]
pub extern "C" fn pouch_fresh(
    image: &mut [u8],
    kind: u8,
    banks: u16,
    code: u8,
    colour: bool,
    rom: &[u8],
    vram: &mut [u8],
    wram: &mut [u8],
    save: &[u8],
    log: &[u8],
    sound: &[u8],
) -> u8
    ensures { Begins image.old (lending kind banks code colour
        rom.now vram.old wram.old save.now log.now sound.now)
        result image.new vram.new wram.new }
{
    host::lent::pouch_fresh(
        image, kind, banks, code, colour, rom, vram, wram, save, log, sound,
    )
}

#[unsafe(no_mangle)]
pub extern "C" fn pouch_recover(save: &mut [u8], log: &[u8]) -> u8
    ensures { Recovers save.old log.now result save.new }
{
    host::lent::pouch_recover(save, log)
}

#[unsafe(no_mangle)]
pub extern "C" fn pouch_log_used(image: &[u8], value: &mut u16) -> u8
    ensures { GivesUse image.now result value.new }
{
    host::lent::pouch_log_used(image, value)
}

#[unsafe(no_mangle)]
pub extern "C" fn pouch_set_log_used(image: &mut [u8], used: u16) -> u8
    ensures { SetsUse image.old used result image.new }
{
    host::lent::pouch_set_log_used(image, used)
}
