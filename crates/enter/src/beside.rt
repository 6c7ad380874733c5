// The entries that are no bus calls, each by its own entry of crate host, and held to what crate entry says of it: a contract that crate host
// weakens fails here. A fresh bus, the log's use and recovery are what lists of entries begin and end with (crate boundary).
ghost use Rattle.entry.specs.EntryContracts.{lending, Begins, MapperReads, MapperWrites, FillsColors, FillsOam, FillsBlock, Shows, Sets};
ghost use Rattle.entry.specs.EntryContracts.{GivesUse, SetsUse, GivesCycles, Recovers, Converts, IsVersion};
ghost use Rattle.memory.specs.World.{fixed};
ghost use Rattle.savelog.specs.declared.Form.TheVariants.{Three, Four};

use entry::HostNumber;
use host::{convert, lent, mapper, screen, state};

pub fn fresh(
    image: &mut [u8],
    kind: u8,
    banks: u16,
    code: u8,
    colour: bool,
    rom: &[u8],
    vram: &mut [u8],
    wram: &mut [u8],
    save: &[u8],
    log: &[u8],
    sound: &[u8],
) -> u8
    ensures { Begins image.old (lending kind banks code colour
        rom.now vram.old wram.old save.now log.now sound.now)
        result image.new vram.new wram.new }
{
    lent::pouch_fresh(
        image, kind, banks, code, colour, rom, vram, wram, save, log, sound,
    )
}

pub fn log_used(image: &[u8], value: &mut u16) -> u8
    ensures { GivesUse image.now result value.new }
{
    lent::pouch_log_used(image, value)
}

pub fn set_log_used(image: &mut [u8], used: u16) -> u8
    ensures { SetsUse image.old used result image.new }
{
    lent::pouch_set_log_used(image, used)
}

pub fn recover(save: &mut [u8], log: &[u8]) -> u8
    ensures { Recovers save.old log.now result save.new }
{
    lent::pouch_recover(save, log)
}

pub fn log_to_new(old: &[u8], log: &mut [u8], value: &mut u16) -> u8
    ensures { Converts Three Four old.now log.old result value.new log.new }
{
    convert::pouch_log_to_new(old, log, value)
}

pub fn log_to_old(log: &[u8], old: &mut [u8], value: &mut u16) -> u8
    ensures { Converts Four Three log.now old.old result value.new old.new }
{
    convert::pouch_log_to_old(log, old, value)
}

pub fn mapper_read(image: &[u8], rom: &[u8], save: &[u8], index: u16, value: &mut u8) -> u8
    ensures { MapperReads image.now rom.now save.now index result value.new }
{
    mapper::pouch_mapper_read(image, rom, save, index, value)
}

pub fn mapper_write(image: &mut [u8], index: u16, byte: u8, value: &mut u32) -> u8
    ensures { MapperWrites image.old index byte result value.new image.new }
{
    mapper::pouch_mapper_write(image, index, byte, value)
}

pub fn cycles_to_overflow(image: &[u8], value: &mut u32) -> u8
    ensures { GivesCycles image.now result value.new }
{
    state::pouch_cycles_to_overflow(image, value)
}

pub fn read_block(
    image: &[u8],
    rom: &[u8],
    vram: &[u8],
    wram: &[u8],
    save: &[u8],
    sound: &[u8],
    index: u16,
    out: &mut [u8],
) -> u8
    ensures { FillsBlock (fixed rom.now sound.now)
        image.now vram.now wram.now save.now out.old index result out.new }
{
    lent::pouch_read_block(image, rom, vram, wram, save, sound, index, out)
}

pub fn colors(image: &[u8], colors: &mut [u8]) -> u8
    ensures { FillsColors image.now colors.old result colors.new }
{
    screen::pouch_colors(image, colors)
}

pub fn oam(image: &[u8], oam: &mut [u8]) -> u8
    ensures { FillsOam image.now oam.old result oam.new }
{
    screen::pouch_oam(image, oam)
}

pub fn host_numbers(
    image: &[u8],
    disabled: &mut u8,
    line: &mut u8,
    signal: &mut u8,
    mode: &mut u8,
    delay: &mut i32,
    counter: &mut i32,
    aux: &mut i32,
    window: &mut i32,
) -> u8
    ensures { Shows image.now result disabled.new line.new signal.new mode.new
        delay.new counter.new aux.new window.new }
{
    screen::pouch_host_numbers(
        image, disabled, line, signal, mode, delay, counter, aux, window,
    )
}

pub fn set(image: &mut [u8], number: HostNumber) -> u8
    ensures { Sets image.old number result image.new }
{
    match number {
        HostNumber::Disabled(x) => screen::pouch_set_screen_disabled(image, x),
        HostNumber::Line(x) => screen::pouch_set_scan_line(image, x),
        HostNumber::Signal(x) => screen::pouch_set_irq48_signal(image, x),
        HostNumber::Mode(x) => screen::pouch_set_lcd_status_mode(image, x),
        HostNumber::Delay(x) => screen::pouch_set_screen_enable_delay_cycles(image, x),
        HostNumber::Counter(x) => screen::pouch_set_cycles_counter(image, x),
        HostNumber::Aux(x) => screen::pouch_set_aux_cycles_counter(image, x),
        HostNumber::Window(x) => screen::pouch_set_window_line(image, x),
    }
}

pub fn version() -> u64
    ensures { IsVersion result }
{
    host::version::pouch_version()
}
