// The memory map, once: every read and write asks it where an index lies.
ghost use Rattle.std.specs.Prelude.{◌≡◌};
ghost use Rattle.memory.specs.Region.{region_of};

#[derive(Clone, Copy)]
pub enum Region {
    // 0000..7FFF: the cartridge's ROM; a write is to the mapper's registers.
    Rom,
    // 8000..9FFF.
    Vram,
    // A000..BFFF: the cartridge's RAM.
    Save,
    // C000..DFFF, and the same bytes at E000..FDFF.
    Wram,
    // FE00..FEFF.
    Oam,
    // FF00..FFFF: registers and high memory.
    Page,
}

// Where the regions start. ROM starts at 0.
pub const VRAM_START: u16 = 0x8000;

pub const SAVE_START: u16 = 0xA000;

pub const WRAM_START: u16 = 0xC000;

// From here on work memory's bytes a second time.
pub const ECHO_START: u16 = 0xE000;

pub const OAM_START: u16 = 0xFE00;

pub const PAGE_START: u16 = 0xFF00;

// High memory, in the page: from here on every byte reads as it is stored.
pub const HRAM_START: u16 = 0xFF80;

#[tactic(auto, unfolding(crate::specs::Region::region_of))]
pub fn region_of(index: u16) -> Region
    ensures { result ≡ region_of index }
{
    match index {
        0..VRAM_START => Region::Rom,
        VRAM_START..SAVE_START => Region::Vram,
        SAVE_START..WRAM_START => Region::Save,
        WRAM_START..OAM_START => Region::Wram,
        OAM_START..PAGE_START => Region::Oam,
        PAGE_START.. => Region::Page,
    }
}
