// MBC1, as the Rust's mbc1.rs: five registers.
#![tactic(auto, unfolding(crate::specs::PanDocs::zero_as_one, crate::specs::Mbc::in_range, crate::specs::Mbc::described, crate::specs::Mbc::held, crate::specs::Mbc::Mbc1Rules::suits, crate::specs::Mbc::Mbc1Rules::ram_bank1, crate::specs::Mbc::Mbc1Rules::enable1, crate::specs::Mbc::Mbc1Rules::low1, crate::specs::Mbc::Mbc1Rules::high1, crate::specs::Mbc::Mbc1Rules::mode1, crate::specs::Mbc::Mbc1Rules::after1))]

ghost use Rattle.std.specs.Prelude.{◌≡◌, true, cond, ◌&&◌, ◌<◌, ◌≤◌};
ghost use Rattle.mbc.specs.PanDocs.{mbc1_bank};
ghost use Rattle.mbc.specs.Registers.{same};
ghost use Rattle.mbc.specs.Mbc.Mbc1Rules.{held1, suits, ram_bank1, enable1, low1, high1, with_mode, mode1, after1, from1, numbers1};
ghost use Rattle.mbc.specs.Mbc.{in_range};
ghost use Rattle.mbc.specs.declared.mbc.Mapper.TheVariants as mapper;

use crate::cartridge::Cartridge;
use crate::held::Registers;

pub const KIND: u8 = 1;

#[derive(Clone, Copy, PartialEq, Eq)]
pub struct Mbc1 {
    // The ROM bank at 4000..7FFF.
    pub rom: u16,
    pub ram: u8,
    // Banking mode.
    pub mode: bool,
    pub enabled: bool,
    // The upper two bits of the ROM bank.
    pub high: u8,
}

// Five bits and the two above them, with the Rust's step from 00, 20, 40, 60: Pan Docs' rule on the five bits.
fn combined(five: u16, two: u8) -> u16
    requires { two ≤ 3 }
    ensures { result ≡ mbc1_bank five two }
{
    let bank = five % 32 + two as u16 * 32;
    match bank {
        0x00 | 0x20 | 0x40 | 0x60 => bank + 1,
        _ => bank,
    }
}

impl From<Registers> for Mbc1 {
    ghost from_gives = { λ r m. m ≡ from1 r };

    fn from(r: Registers) -> Mbc1 {
        Mbc1 {
            rom: r.rom,
            ram: r.ram,
            mode: r.mode == 1,
            enabled: r.enabled == 1,
            high: r.high,
        }
    }
}

impl From<Mbc1> for Registers {
    ghost from_gives = { λ m r. r ≡ numbers1 m };

    fn from(m: Mbc1) -> Registers {
        Registers {
            kind: KIND,
            rom: m.rom,
            ram: m.ram,
            mode: u8::from(m.mode),
            enabled: u8::from(m.enabled),
            high: m.high,
        }
    }
}

impl Mbc1 {
    // RAM enabled needs code 2 or 3; banking mode or a RAM bank above 0 needs code 3.
    fn suits(self, code: u8) -> bool
        ensures { result ≡ suits self code }
    {
        code == 3 || !self.mode && self.ram == 0 && (code == 2 || !self.enabled)
    }

    // The state ranges.
    fn held(self, cartridge: Cartridge) -> bool
        ensures { result ≡ held1 cartridge self }
    {
        self.rom < cartridge.banks && self.ram <= 3 && self.high <= 3 && self.suits(cartridge.code)
    }

    // What MBC5 has in common with it, here and in `enable`, is a method of the cartridge: the rest of each line names what differs.
    pub fn in_range(self, cartridge: Cartridge) -> bool
        ensures { result ≡ in_range cartridge (mapper.Mbc1 self) }
    {
        cartridge.describes(128, 3) && self.held(cartridge)
    }

    // Whether one has these registers, and is in range. `Mbc2::fit` is the same of its type: one generic over both would need `in_range` in a trait, of which
    // no other code makes use.
    #[tactic(auto, unfolding(crate::specs::Registers::same))]
    pub fn fit(r: Registers, cartridge: Cartridge) -> bool
        ensures { result ≡ (same r (numbers1 (from1 r)) && in_range cartridge (mapper.Mbc1 (from1 r))) }
    {
        let m = Mbc1::from(r);
        r == Registers::from(m) && m.in_range(cartridge)
    }

    // The RAM bank at A000..BFFF.
    pub fn ram_bank(self) -> u8
        ensures { result ≡ ram_bank1 self }
    {
        if self.mode { self.ram } else { 0 }
    }

    // 0000..1FFF
    fn enable(self, cartridge: Cartridge, value: u8) -> Mbc1
        ensures { result ≡ enable1 cartridge self value }
    {
        Mbc1 {
            enabled: cartridge.enabled(self.enabled, value),
            ..self
        }
    }

    // The ROM bank that the five bits give: in banking mode the upper bits are left out.
    fn low_bank(self, value: u8) -> u16
        requires { self.high ≤ 3 }
        ensures { result ≡ mbc1_bank value (cond self.mode 0 self.high) }
    {
        let high = if self.mode { 0 } else { self.high };
        combined(value as u16, high)
    }

    // 2000..3FFF
    fn select_low(self, cartridge: Cartridge, value: u8) -> Mbc1
        requires { (self.high ≤ 3) × (0 < cartridge.banks) }
        ensures { result ≡ low1 cartridge self value }
    {
        let bank = self.low_bank(value);
        Mbc1 {
            rom: cartridge.masked(bank),
            ..self
        }
    }

    // 4000..5FFF: the RAM bank in banking mode, else the upper bits of the ROM bank.
    fn select_high(self, cartridge: Cartridge, value: u8) -> Mbc1
        requires { (0 < cartridge.banks) × ((self.mode ≡ true) → cartridge.code ≡ 3) }
        ensures { result ≡ high1 cartridge self value }
    {
        if self.mode {
            return Mbc1 {
                ram: value % 4 % cartridge.ram_banks(),
                ..self
            };
        }
        let high = value % 4;
        let bank = combined(self.rom, high);
        let masked = cartridge.masked(bank);
        Mbc1 {
            rom: masked,
            high,
            ..self
        }
    }

    // The mode after a write of it: banking mode only with several RAM banks.
    fn mode_by(self, cartridge: Cartridge, value: u8) -> bool
        ensures { with_mode self result ≡ mode1 cartridge self value }
    {
        value % 2 == 1 && (cartridge.code == 3 || self.mode)
    }

    // 6000..7FFF
    fn select_mode(self, cartridge: Cartridge, value: u8) -> Mbc1
        ensures { result ≡ mode1 cartridge self value }
    {
        Mbc1 {
            mode: self.mode_by(cartridge, value),
            ..self
        }
    }

    pub fn after(self, cartridge: Cartridge, index: u16, value: u8) -> Mbc1
        requires { in_range cartridge (mapper.Mbc1 self) ≡ true }
        ensures { result ≡ after1 cartridge self index value }
    {
        match index {
            0x0000..=0x1FFF => self.enable(cartridge, value),
            0x2000..=0x3FFF => self.select_low(cartridge, value),
            0x4000..=0x5FFF => self.select_high(cartridge, value),
            0x6000..=0x7FFF => self.select_mode(cartridge, value),
            _ => self,
        }
    }
}
