// MBC2, as the Rust's mbc2.rs: a ROM bank of four bits, and 512 half bytes of RAM.
#![tactic(auto, unfolding(crate::specs::PanDocs::zero_as_one, crate::specs::Mbc::in_range, crate::specs::Mbc::described, crate::specs::Mbc::held, crate::specs::Mbc::Mbc2Rules::enable2, crate::specs::Mbc::Mbc2Rules::select2, crate::specs::Mbc::Mbc2Rules::after2))]

ghost use Rattle.std.specs.Prelude.{◌≡◌, true, ◌&&◌, ◌<◌, ◌≤◌};
ghost use Rattle.mbc.specs.Registers.{same};
ghost use Rattle.mbc.specs.Mbc.Mbc2Rules.{enable2, select2, after2, from2, numbers2, ram_source2};
ghost use Rattle.mbc.specs.Mbc.{in_range};
ghost use Rattle.mbc.specs.declared.mbc.Mapper.TheVariants as mapper;

use crate::cartridge::{Cartridge, enables};
use crate::held::Registers;
use crate::mbc::{Source, ram_address};

pub const KIND: u8 = 2;

// Half bytes, one in each byte of the save.
pub const RAM_LEN: usize = 512;

#[derive(Clone, Copy, PartialEq, Eq)]
pub struct Mbc2 {
    // The ROM bank at 4000..7FFF.
    pub rom: u16,
    pub enabled: bool,
}

impl From<Registers> for Mbc2 {
    ghost from_gives = { λ r m. m ≡ from2 r };

    fn from(r: Registers) -> Mbc2 {
        Mbc2 {
            rom: r.rom,
            enabled: r.enabled == 1,
        }
    }
}

impl From<Mbc2> for Registers {
    ghost from_gives = { λ m r. r ≡ numbers2 m };

    fn from(m: Mbc2) -> Registers {
        Registers {
            kind: KIND,
            rom: m.rom,
            ram: 0,
            mode: 0,
            enabled: u8::from(m.enabled),
            high: 0,
        }
    }
}

impl Mbc2 {
    pub fn in_range(self, cartridge: Cartridge) -> bool
        ensures { result ≡ in_range cartridge (mapper.Mbc2 self) }
    {
        cartridge.has_banks(16) && cartridge.code == 0 && self.rom < cartridge.banks
    }

    // Whether one has these registers, and is in range: as `Mbc1::fit`, which says why it stands twice.
    #[tactic(auto, unfolding(crate::specs::Registers::same))]
    pub fn fit(r: Registers, cartridge: Cartridge) -> bool
        ensures { result ≡ (same r (numbers2 (from2 r)) && in_range cartridge (mapper.Mbc2 (from2 r))) }
    {
        let m = Mbc2::from(r);
        r == Registers::from(m) && m.in_range(cartridge)
    }

    // A000..BFFF
    pub fn ram_source(self, index: u16) -> Source
        requires { 0xA000 ≤ index }
        ensures { result ≡ ram_source2 self index }
    {
        if 0xA200 <= index {
            return Source::Fixed(0x00);
        }
        if self.enabled {
            return Source::Half(ram_address(0, index));
        }
        Source::Fixed(0xFF)
    }

    // 0000..1FFF, with bit 8 of the index at 0.
    fn enable(self, index: u16, value: u8) -> Mbc2
        ensures { result ≡ enable2 self index value }
    {
        if index / 256 % 2 == 1 {
            return self;
        }
        Mbc2 {
            enabled: enables(value),
            ..self
        }
    }

    // 2000..3FFF, with bit 8 of the index at 1.
    fn select(self, cartridge: Cartridge, index: u16, value: u8) -> Mbc2
        requires { 0 < cartridge.banks }
        ensures { result ≡ select2 cartridge self index value }
    {
        if index / 256 % 2 == 0 {
            return self;
        }
        let four = value as u16 % 16;
        let bank = if four == 0 { 1 } else { four };
        Mbc2 {
            rom: cartridge.masked(bank),
            ..self
        }
    }

    pub fn after(self, cartridge: Cartridge, index: u16, value: u8) -> Mbc2
        requires { in_range cartridge (mapper.Mbc2 self) ≡ true }
        ensures { result ≡ after2 cartridge self index value }
    {
        match index {
            0x0000..=0x1FFF => self.enable(index, value),
            0x2000..=0x3FFF => self.select(cartridge, index, value),
            _ => self,
        }
    }
}
