// Reads and writes of the bus on lent memories, as the Rust's mmu/mod.rs: `read_byte`, `write_byte` and the transfers that a write starts.
// These are the calls within: the state is in range and the lengths are right. The public ones, which see to that, are in the crates bus, write_calls and transfer_calls.
// `Ready` and `Holds` (specs/Access.antt) stay clauses, and no invariant of a type: they tie the state to the lengths of slices that stand beside it.
#![tactic(auto)]

ghost use Rattle.std.specs.Prelude.{◌≡◌, ◌<◌, []};
ghost use Rattle.memory.specs.World.{world, fixed};
ghost use Rattle.copies.specs.Copies.{oam_copy, Bounded};
ghost use Rattle.registers.specs.Transfers.{block_copy};
ghost use Rattle.mmu.specs.Access.{Holds, Ready, read_byte, read_word, put};
ghost use Rattle.mmu.specs.Write.{transferred, starting, write_at, word_at};

use memory::{Memory, Region, region_of};

pub mod regions;

use copies::Copy;
use regions::{put_mapper, put_save, read_lent, write_cgb_lcd_ram, write_cgb_wram};

pub fn read_byte(
    memory: Memory,
    rom: &[u8],
    vram: &[u8],
    wram: &[u8],
    save: &[u8],
    sound: &[u8],
    index: u16,
) -> u8
    requires { Ready (fixed rom.now sound.now) (world memory vram.now wram.now save.now []) }
    ensures { result ≡ read_byte (fixed rom.now sound.now) memory vram.now wram.now save.now index }
{
    let region = region_of(index);
    match region {
        Region::Oam => memory.oam[(index - memory::OAM_START) as usize],
        Region::Page => registers::page::read(memory, sound, (index - memory::PAGE_START) as u8),
        _ => read_lent(memory.core, rom, vram, wram, save, region, index),
    }
}

// A byte write without the copying that it may start.
pub fn put_byte(
    mut memory: Memory,
    vram: &mut [u8],
    wram: &mut [u8],
    save: &mut [u8],
    log: &mut [u8],
    index: u16,
    value: u8,
) -> Memory
    requires { Holds (world memory vram.old wram.old save.old log.old) }
    ensures { world result vram.new wram.new save.new log.new ≡ put (world memory vram.old wram.old save.old log.old) index value }
{
    match region_of(index) {
        Region::Rom => put_mapper(memory, index, value),
        Region::Vram => {
            write_cgb_lcd_ram(vram, memory.core.banks.vram, index, value);
            memory
        }
        Region::Save => put_save(memory, save, log, index, value),
        Region::Wram => {
            write_cgb_wram(wram, memory.core.banks.wram, index, value);
            memory
        }
        Region::Oam => {
            memory.oam[(index - memory::OAM_START) as usize] = value;
            memory
        }
        Region::Page => registers::page::write(memory, (index - memory::PAGE_START) as u8, value),
    }
}

// Whether a byte write starts a transfer: of FF46 or FF55, above depth 0.
#[tactic(auto, unfolding(crate::specs::Write::starting))]
fn starting(depth: u8, index: u16) -> bool
    ensures { result ≡ starting depth index }
{
    depth != 0 && matches!(index, 0xFF46 | 0xFF55)
}

// A byte write. The writes of a transfer that it starts stand one lower; at depth 0 none is started.
// What is lent stays a parameter each. Behind one `lent: &mut Lent` with a field for each slice the proof of a transfer does not close: after a read through
// `lent.vram` no byte of it is known. Each function also needs a clause for each slice that its field refers to the same memory, and a C entry, which is
// lent them one by one, would make the struct.
#[cycle(do_dma_transfer_write_byte)]
pub fn write_byte(
    depth: u8,
    memory: Memory,
    rom: &[u8],
    vram: &mut [u8],
    wram: &mut [u8],
    save: &mut [u8],
    log: &mut [u8],
    sound: &[u8],
    index: u16,
    value: u8,
) -> Memory
    requires { Ready (fixed rom.now sound.now) (world memory vram.old wram.old save.old log.old) }
    ensures { world result vram.new wram.new save.new log.new ≡ write_at (fixed rom.now sound.now) depth (world memory vram.old wram.old save.old log.old) index value }
{
    if !starting(depth, index) {
        return put_byte(memory, vram, wram, save, log, index, value);
    }
    let started = registers::transfers::start_transfer(memory, index, value);
    do_dma_transfer(
        depth - 1,
        started.memory,
        rom,
        vram,
        wram,
        save,
        log,
        sound,
        started.copy,
        value,
    )
}

// A transfer: its bytes in rising order, each by a byte write, so that later reads see earlier writes; then its registers. The source wraps.
// Of a general transfer `value` says the length. `Bounded` of the copy stays a clause, as in `registers::transfers::block_copy`.
#[cycle(do_dma_transfer_write_byte)]
pub fn do_dma_transfer(
    depth: u8,
    memory: Memory,
    rom: &[u8],
    vram: &mut [u8],
    wram: &mut [u8],
    save: &mut [u8],
    log: &mut [u8],
    sound: &[u8],
    copy: Copy,
    value: u8,
) -> Memory
    requires { Ready (fixed rom.now sound.now) (world memory vram.old wram.old save.old log.old) × Bounded copy }
    ensures { world result vram.new wram.new save.new log.new ≡ transferred (fixed rom.now sound.now) (write_at (fixed rom.now sound.now) depth) copy value (world memory vram.old wram.old save.old log.old) }
{
    let mut next = memory;
    for i in 0..copy.count {
        let from = copy.source.wrapping_add(i);
        let byte = read_byte(next, rom, vram, wram, save, sound, from);
        next = write_byte(
            depth,
            next,
            rom,
            vram,
            wram,
            save,
            log,
            sound,
            copy.destination + i,
            byte,
        );
    }
    registers::transfers::end_copy(next, copy.finish, value)
}

// Low byte first; FFFF is followed by 0000.
pub fn read_word(
    memory: Memory,
    rom: &[u8],
    vram: &[u8],
    wram: &[u8],
    save: &[u8],
    sound: &[u8],
    index: u16,
) -> u16
    requires { Ready (fixed rom.now sound.now) (world memory vram.now wram.now save.now []) }
    ensures { result ≡ read_word (fixed rom.now sound.now) memory vram.now wram.now save.now index }
{
    let low = read_byte(memory, rom, vram, wram, save, sound, index);
    let above = index.wrapping_add(1);
    let high = read_byte(memory, rom, vram, wram, save, sound, above);
    u16::from_le_bytes([low, high])
}

// Two byte writes, low byte first.
pub fn write_word(
    memory: Memory,
    rom: &[u8],
    vram: &mut [u8],
    wram: &mut [u8],
    save: &mut [u8],
    log: &mut [u8],
    sound: &[u8],
    index: u16,
    value: u16,
) -> Memory
    requires { Ready (fixed rom.now sound.now) (world memory vram.old wram.old save.old log.old) }
    ensures { world result vram.new wram.new save.new log.new ≡ word_at (fixed rom.now sound.now) (world memory vram.old wram.old save.old log.old) index value }
{
    let [low, high] = value.to_le_bytes();
    let half = write_byte(2, memory, rom, vram, wram, save, log, sound, index, low);
    let above = index.wrapping_add(1);
    write_byte(2, half, rom, vram, wram, save, log, sound, above, high)
}

// OAM DMA as the host calls it: FF46 stays as it is.
pub fn do_oam_dma(
    memory: Memory,
    rom: &[u8],
    vram: &mut [u8],
    wram: &mut [u8],
    save: &mut [u8],
    log: &mut [u8],
    sound: &[u8],
    page: u8,
) -> Memory
    requires { Ready (fixed rom.now sound.now) (world memory vram.old wram.old save.old log.old) }
    ensures { world result vram.new wram.new save.new log.new ≡ transferred (fixed rom.now sound.now) (write_at (fixed rom.now sound.now) 1) (oam_copy page) 0 (world memory vram.old wram.old save.old log.old) }
{
    let copy = copies::oam_copy(page);
    do_dma_transfer(1, memory, rom, vram, wram, save, log, sound, copy, 0)
}

// One HDMA block, enabled or not.
pub fn do_hdma(
    memory: Memory,
    rom: &[u8],
    vram: &mut [u8],
    wram: &mut [u8],
    save: &mut [u8],
    log: &mut [u8],
    sound: &[u8],
) -> Memory
    requires { Ready (fixed rom.now sound.now) (world memory vram.old wram.old save.old log.old) }
    ensures { world result vram.new wram.new save.new log.new ≡ transferred (fixed rom.now sound.now) (write_at (fixed rom.now sound.now) 1) (block_copy memory) 0 (world memory vram.old wram.old save.old log.old) }
{
    let copy = registers::transfers::block_copy(memory);
    do_dma_transfer(1, memory, rom, vram, wram, save, log, sound, copy, 0)
}
