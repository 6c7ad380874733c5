// The state of the bus, as the Rust's `Memory` without what is lent: its groups, its ranges, and how it starts; and the memory map.
// The groups are the records of the crates below; the lent memories are slices, which the calls take beside the state.
#![tactic(auto)]

ghost use Rattle.std.specs.Prelude.{not, ◌||◌, ◌≡◌, ◌<◌};
ghost use Rattle.memory.specs.Ranges.{banks_in_range, hdma_in_range, groups_in_range, palettes_in_range, in_range, core_in_range, vram_len, wram_len};
ghost use Rattle.memory.specs.Start.{zeroed, start_hdma, started};
ghost use Rattle.memory.specs.World.{core_of, with_mapper, with_used};

mod region;
mod start;

use hdma::Hdma;
use joypad::Controller;
use lcd::Lcd;
use mbc::{Cartridge, Mapper};
use palette::Color;
pub use region::{
    ECHO_START, HRAM_START, OAM_START, PAGE_START, Region, SAVE_START, VRAM_START, WRAM_START,
    region_of,
};
pub use start::start_page;

// `is_cgb`, `vram_bank` and `wram_bank`.
#[derive(Clone, Copy)]
pub struct Banks {
    pub colour: bool,
    pub vram: u8,
    pub wram: u8,
}

// `div_cycles` and `tima_cycles`.
#[derive(Clone, Copy)]
pub struct Clock {
    pub div: u8,
    pub tima: u16,
}

// All of the state but its arrays: what the ranges read but for the colours, and what the lent lengths follow.
#[derive(Clone, Copy)]
pub struct Core {
    pub banks: Banks,
    pub lcd: Lcd,
    pub hdma: Hdma,
    pub joypad: Controller,
    pub clock: Clock,
    pub cartridge: Cartridge,
    pub mapper: Mapper,
    // The bytes of the log that are used.
    pub used: u16,
}

#[derive(Clone, Copy)]
pub struct Memory {
    pub oam: [u8; 256],
    // The Rust's `high_ram`: FF00..FFFF.
    pub page: [u8; 256],
    pub background: [Color; 32],
    pub sprites: [Color; 32],
    pub core: Core,
}

pub fn with_mapper(mut memory: Memory, mapper: Mapper) -> Memory
    ensures { result ≡ with_mapper memory mapper }
{
    memory.core.mapper = mapper;
    memory
}

pub fn with_used(mut memory: Memory, used: u16) -> Memory
    ensures { result ≡ with_used memory used }
{
    memory.core.used = used;
    memory
}

// The bytes of the sound window.
pub const SOUND_LEN: usize = 48;

// Bytes of video memory. Two functions, as each is one test: a third for both would be that test, with the two lengths handed to it.
pub fn vram_len(colour: bool) -> usize
    ensures { result ≡ vram_len colour }
{
    if colour { 0x4000 } else { 0x2000 }
}

// Bytes of work memory.
pub fn wram_len(colour: bool) -> usize
    ensures { result ≡ wram_len colour }
{
    if colour { 0x8000 } else { 0x2000 }
}

#[tactic(auto, unfolding(crate::specs::Ranges::banks_in_range))]
pub fn banks_in_range(banks: Banks) -> bool
    ensures { result ≡ banks_in_range banks }
{
    if banks.colour {
        banks.vram <= 1 && 1 <= banks.wram && banks.wram <= 7
    } else {
        banks.vram == 0 && banks.wram == 1
    }
}

// Monochrome: HDMA off.
fn hdma_allowed(on: bool, colour: bool) -> bool
    ensures { result ≡ (colour || not on) }
{
    colour || !on
}

#[tactic(auto, unfolding(crate::specs::Ranges::hdma_in_range))]
pub fn hdma_in_range(hdma: Hdma, colour: bool) -> bool
    ensures { result ≡ hdma_in_range hdma colour }
{
    hdma.source % 16 == 0 && hdma.destination % 16 == 0 && hdma_allowed(hdma.on, colour)
}

// The ranges of the groups.
#[tactic(auto, unfolding(crate::specs::Ranges::groups_in_range))]
fn groups_in_range(core: Core) -> bool
    ensures { result ≡ groups_in_range core }
{
    banks_in_range(core.banks)
        && hdma_in_range(core.hdma, core.banks.colour)
        && core.clock.tima <= 1023
        && core.mapper.in_range(core.cartridge)
}

// All ranges but the colours'; `limit` is the lent log's length, or 65,535 where none is lent.
#[tactic(auto, unfolding(crate::specs::Ranges::core_in_range))]
pub fn core_in_range(core: Core, limit: usize) -> bool
    ensures { result ≡ core_in_range core limit }
{
    groups_in_range(core) && savelog::use_in_range(core.used, limit)
}

// The ranges of the colours.
#[tactic(auto, unfolding(crate::specs::Ranges::palettes_in_range))]
fn palettes_in_range(memory: Memory) -> bool
    ensures { result ≡ palettes_in_range memory }
{
    palette::colors_in_range(memory.background) && palette::colors_in_range(memory.sprites)
}

// All ranges.
#[tactic(auto, using(crate::proofs::Laws::core_colors))]
pub fn in_range(memory: Memory, limit: usize) -> bool
    ensures { result ≡ in_range memory limit }
{
    core_in_range(memory.core, limit) && palettes_in_range(memory)
}

// The colour that every palette starts with.
const BLACK: Color = Color {
    red: 0,
    green: 0,
    blue: 0,
};

// No transfer, and the hidden addresses 0.
const OFF: Hdma = Hdma {
    on: false,
    source: 0,
    destination: 0,
};

// These groups, and all else 0.
fn core_of(
    banks: Banks,
    lcd: Lcd,
    hdma: Hdma,
    joypad: Controller,
    cartridge: Cartridge,
    mapper: Mapper,
) -> Core
    ensures { result ≡ core_of banks lcd hdma joypad cartridge mapper }
{
    Core {
        banks,
        lcd,
        hdma,
        joypad,
        clock: Clock { div: 0, tima: 0 },
        cartridge,
        mapper,
        used: 0,
    }
}

// The state that stands for a refused fresh start: the call gives `Err`, and this is the definitions' value of it. It is out of range: it has no WRAM bank.
#[tactic(auto, unfolding(crate::specs::Start::zeroed))]
pub fn zero() -> Memory
    ensures { result ≡ zeroed }
{
    Memory {
        oam: [0; 256],
        page: [0; 256],
        background: [BLACK; 32],
        sprites: [BLACK; 32],
        core: core_of(
            Banks {
                colour: false,
                vram: 0,
                wram: 0,
            },
            lcd::host(false, 0, 0, 0, 0, 0, 0, 0),
            OFF,
            Controller {
                released: 0,
                action: false,
                direction: false,
                state: 0,
            },
            Cartridge { banks: 0, code: 0 },
            Mapper::RomOnly,
        ),
    }
}

// The hidden addresses at the start: those of the colour page, or 0. `colour` picks a value, as the definition does, and no step that a caller could pass.
#[tactic(auto, unfolding(crate::specs::Start::start_hdma))]
fn start_hdma(colour: bool, page: [u8; 256]) -> Hdma
    ensures { result ≡ start_hdma colour page }
{
    if colour {
        hdma::start_of(page[0x51], page[0x52], page[0x53], page[0x54])
    } else {
        OFF
    }
}

// The Rust's `from_cartridge`.
#[tactic(auto, unfolding(crate::specs::Start::started))]
pub fn new(cartridge: Cartridge, mapper: Mapper, colour: bool) -> Memory
    ensures { result ≡ started cartridge mapper colour }
{
    let page = start_page(colour);
    let hdma = start_hdma(colour, page);
    Memory {
        oam: [0; 256],
        page,
        background: [BLACK; 32],
        sprites: [BLACK; 32],
        core: core_of(
            Banks {
                colour,
                vram: 0,
                wram: 1,
            },
            lcd::host(false, 144, 0, 1, 0, 0, 0, 0),
            hdma,
            Controller::new(),
            cartridge,
            mapper,
        ),
    }
}
