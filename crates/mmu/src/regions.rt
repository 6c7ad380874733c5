// The regions of the address space, one function each.
ghost use Rattle.std.specs.Prelude.{◌≡◌, ℕ, ◌+◌, ◌*◌, ◌<◌, ◌≤◌, true, List, [], length, slice_index, slice_set};
ghost use Rattle.mbc.specs.Mbc.{in_range, ram_len};
ghost use Rattle.memory.specs.Region.{vram_start, save_start, wram_start, oam_start, region_of};
ghost use Rattle.memory.specs.World.{world, fixed, with_mapper, with_used};
ghost use Rattle.memory.specs.declared.Memory.{Memory};
ghost use Rattle.savelog.specs.Log.{width, log_limit};
ghost use Rattle.mmu.specs.PanDocs.{echo, vram_at, wram_at};
ghost use Rattle.mmu.specs.Access.{Reaches, read_byte, mapper_put, Lands, saved, save_put};

use mbc::{Cartridge, Mapper, Stored};
use memory::{Core, Memory, Region};

// E000..FDFF is the same byte as 2000 hex lower.
#[tactic(auto, unfolding(crate::specs::PanDocs::echo))]
fn lowered(index: u16) -> u16
    requires { wram_start ≤ index }
    ensures { (result ≡ echo index) × (wram_start ≤ result) }
{
    if index < memory::ECHO_START {
        index
    } else {
        index - 0x2000
    }
}

// Where an index of video memory lies.
pub fn vram_at(bank: u8, index: u16) -> usize
    requires { vram_start ≤ index }
    ensures { result ≡ vram_at bank index }
{
    (index - memory::VRAM_START) as usize + bank as usize * 0x2000
}

// A place in a bank of work memory.
fn banked(bank: u8, offset: u16) -> usize
    ensures { result ≡ offset + bank * 0x1000 }
{
    offset as usize + bank as usize * 0x1000
}

// Where an index of work memory lies.
#[tactic(auto, unfolding(crate::specs::PanDocs::wram_at))]
pub fn wram_at(bank: u8, index: u16) -> usize
    requires { wram_start ≤ index }
    ensures { result ≡ wram_at bank index }
{
    let at = lowered(index);
    if at < 0xD000 {
        banked(0, at - memory::WRAM_START)
    } else {
        banked(bank, at - 0xD000)
    }
}

// Reads and writes of video and of work memory are one line each over the place (`vram_at`, `wram_at`): one function for both would take the place and its
// bound from the caller, and be the index expression.
pub fn read_cgb_lcd_ram(vram: &[u8], bank: u8, index: u16) -> u8
    requires { ((vram_start ≤ index) × (index < save_start)) × (bank * 0x2000 + 0x2000 ≤ length vram.now) }
    ensures { result ≡ slice_index vram.now (vram_at bank index) }
{
    vram[vram_at(bank, index)]
}

pub fn write_cgb_lcd_ram(vram: &mut [u8], bank: u8, index: u16, value: u8)
    requires { ((vram_start ≤ index) × (index < save_start)) × (bank * 0x2000 + 0x2000 ≤ length vram.old) }
    ensures { vram.new ≡ slice_set vram.old (vram_at bank index) value }
{
    vram[vram_at(bank, index)] = value;
}

pub fn read_cgb_wram(wram: &[u8], bank: u8, index: u16) -> u8
    requires { ((wram_start ≤ index) × (index < oam_start)) × ((0x1000 ≤ length wram.now) × (bank * 0x1000 + 0x1000 ≤ length wram.now)) }
    ensures { result ≡ slice_index wram.now (wram_at bank index) }
{
    wram[wram_at(bank, index)]
}

pub fn write_cgb_wram(wram: &mut [u8], bank: u8, index: u16, value: u8)
    requires { ((wram_start ≤ index) × (index < oam_start)) × ((0x1000 ≤ length wram.old) × (bank * 0x1000 + 0x1000 ≤ length wram.old)) }
    ensures { wram.new ≡ slice_set wram.old (wram_at bank index) value }
{
    wram[wram_at(bank, index)] = value;
}

// A read of what is lent: of the ROM, video memory, the save or work memory. It takes of the bus only what says where.
pub fn read_lent(
    core: Core,
    rom: &[u8],
    vram: &[u8],
    wram: &[u8],
    save: &[u8],
    region: Region,
    index: u16,
) -> u8
    requires { Reaches core rom.now vram.now wram.now save.now × ((region ≡ region_of index) × (index < oam_start)) }
    ensures { (m : Memory) (sound : List ℕ) → m.core ≡ core → result ≡ read_byte (fixed rom.now sound) m vram.now wram.now save.now index }
{
    match region {
        Region::Vram => read_cgb_lcd_ram(vram, core.banks.vram, index),
        Region::Wram => read_cgb_wram(wram, core.banks.wram, index),
        _ => core.mapper.read(core.cartridge, rom, save, index),
    }
}

// That the mapper is in range of the cartridge stays a `requires`, here and below, as in crate mbc: the definitions speak of any pair.

// A write below 8000: the mapper's registers.
pub fn put_mapper(memory: Memory, index: u16, value: u8) -> Memory
    requires { (index < vram_start) × (in_range memory.core.cartridge memory.core.mapper ≡ true) }
    ensures { result ≡ mapper_put memory index value }
{
    let written = memory
        .core
        .mapper
        .write(memory.core.cartridge, index, value);
    memory::with_mapper(memory, written.mapper)
}

// What a write in A000..BFFF leaves of the bus: the mapper, and how many bytes of the log are used.
#[derive(Clone, Copy)]
pub struct Mapping {
    pub mapper: Mapper,
    pub used: u16,
}

// Does what a mapper answered: a byte is stored in the save and recorded in the log. It gives the log's next use.
pub fn store_answer(answer: Option<Stored>, used: u16, save: &mut [u8], log: &mut [u8]) -> u16
    requires { Lands answer (length save.old) × ((used + width ≤ length log.old) × (length log.old ≤ log_limit)) }
    ensures { (m : Memory) → m.core.used ≡ used → world (with_used m result) [] [] save.new log.new ≡ saved answer (world m [] [] save.old log.old) }
{
    let Some(stored) = answer else {
        return used;
    };
    save[stored.at] = stored.value;
    savelog::append(log, used, stored.at, stored.value)
}

// A write in A000..BFFF: the mapper answers, the bus stores the byte and records it. A log without room records nothing, and nothing is stored or changed.
// It takes of the bus the cartridge, the mapper and the bytes of the log that are used.
pub fn store_save(
    cartridge: Cartridge,
    mapper: Mapper,
    used: u16,
    save: &mut [u8],
    log: &mut [u8],
    index: u16,
    value: u8,
) -> Mapping
    requires { ((save_start ≤ index) × (index < wram_start)) × ((in_range cartridge mapper ≡ true) × ((length save.old ≡ ram_len cartridge mapper) × (length log.old ≤ log_limit))) }
    ensures { (m : Memory) → m.core.cartridge ≡ cartridge → m.core.mapper ≡ mapper → m.core.used ≡ used → world (with_used (with_mapper m result.mapper) result.used) [] [] save.new log.new ≡ save_put (world m [] [] save.old log.old) index value }
{
    if savelog::full(log.len(), used, 1) {
        return Mapping { mapper, used };
    }
    let written = mapper.write(cartridge, index, value);
    let more = store_answer(written.answer, used, save, log);
    Mapping {
        mapper: written.mapper,
        used: more,
    }
}

pub fn put_save(memory: Memory, save: &mut [u8], log: &mut [u8], index: u16, value: u8) -> Memory
    requires { ((save_start ≤ index) × (index < wram_start)) × ((in_range memory.core.cartridge memory.core.mapper ≡ true) × ((length save.old ≡ ram_len memory.core.cartridge memory.core.mapper) × (length log.old ≤ log_limit))) }
    ensures { world result [] [] save.new log.new ≡ save_put (world memory [] [] save.old log.old) index value }
{
    let core = memory.core;
    let mapping = store_save(
        core.cartridge,
        core.mapper,
        core.used,
        save,
        log,
        index,
        value,
    );
    memory::with_used(memory::with_mapper(memory, mapping.mapper), mapping.used)
}
