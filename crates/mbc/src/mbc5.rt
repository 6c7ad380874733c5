// MBC5, from Pan Docs, beside the Rust's mbc5.rs: a ROM bank of nine bits, 0 too, and RAM banks.
#![tactic(auto, unfolding(crate::specs::Mbc::in_range, crate::specs::Mbc::described, crate::specs::Mbc::held, crate::specs::Mbc::Mbc5Rules::chosen_ram, crate::specs::Mbc::Mbc5Rules::ram_fits, crate::specs::Mbc::Mbc5Rules::enable5, crate::specs::Mbc::Mbc5Rules::low5, crate::specs::Mbc::Mbc5Rules::ninth5, crate::specs::Mbc::Mbc5Rules::ram5, crate::specs::Mbc::Mbc5Rules::after5))]

ghost use Rattle.std.specs.Prelude.{◌≡◌, true, ◌&&◌, ◌<◌, ◌≤◌};
ghost use Rattle.mbc.specs.PanDocs.{mbc5_bank};
ghost use Rattle.mbc.specs.Registers.{same};
ghost use Rattle.mbc.specs.Mbc.Mbc5Rules.{held5, chosen_ram, enable5, low5, ninth5, ram5, after5, from5, numbers5};
ghost use Rattle.mbc.specs.Mbc.{in_range};
ghost use Rattle.mbc.specs.declared.mbc.Mapper.TheVariants as mapper;

use crate::cartridge::Cartridge;
use crate::held::Registers;

pub const KIND: u8 = 3;

#[derive(Clone, Copy, PartialEq, Eq)]
pub struct Mbc5 {
    // The ROM bank at 4000..7FFF. The Rust's `selected_rom_bank_high` is its ninth bit: with 512 banks nothing is masked off, with fewer that bit never counts.
    pub rom: u16,
    pub ram: u8,
    pub enabled: bool,
}

// Eight bits, and the ninth above them.
fn nine_bits(eight: u16, ninth: u16) -> u16
    ensures { result ≡ mbc5_bank eight ninth }
{
    eight % 256 + ninth % 2 * 256
}

// One of the RAM banks; 0 where there is none.
fn chosen_ram(bank: u8, banks: u8) -> u8
    ensures { result ≡ chosen_ram banks bank }
{
    if banks == 0 {
        return 0;
    }
    bank % banks
}

impl From<Registers> for Mbc5 {
    ghost from_gives = { λ r m. m ≡ from5 r };

    fn from(r: Registers) -> Mbc5 {
        Mbc5 {
            rom: r.rom,
            ram: r.ram,
            enabled: r.enabled == 1,
        }
    }
}

impl From<Mbc5> for Registers {
    ghost from_gives = { λ m r. r ≡ numbers5 m };

    fn from(m: Mbc5) -> Registers {
        Registers {
            kind: KIND,
            rom: m.rom,
            ram: m.ram,
            mode: 0,
            enabled: u8::from(m.enabled),
            high: 0,
        }
    }
}

impl Mbc5 {
    // Whether one has these registers.
    #[tactic(auto, unfolding(crate::specs::Registers::same))]
    pub fn has(r: Registers) -> bool
        ensures { result ≡ same r (numbers5 (from5 r)) }
    {
        r.kind == KIND && r.mode == 0 && r.enabled <= 1 && r.high == 0
    }

    // The state ranges: RAM enabled needs code 2, 3 or 4, and the RAM bank is one that there is, or 0.
    fn held(self, cartridge: Cartridge) -> bool
        ensures { result ≡ held5 cartridge self }
    {
        self.rom < cartridge.banks
            && (self.ram < cartridge.ram_banks() || self.ram == 0 && !self.enabled)
    }

    pub fn in_range(self, cartridge: Cartridge) -> bool
        ensures { result ≡ in_range cartridge (mapper.Mbc5 self) }
    {
        cartridge.describes(512, 4) && self.held(cartridge)
    }

    // Whether one has these registers, and is in range.
    pub fn fit(r: Registers, cartridge: Cartridge) -> bool
        ensures { result ≡ (same r (numbers5 (from5 r)) && in_range cartridge (mapper.Mbc5 (from5 r))) }
    {
        let m = Mbc5::from(r);
        Mbc5::has(r) && m.in_range(cartridge)
    }

    // 0000..1FFF
    fn enable(self, cartridge: Cartridge, value: u8) -> Mbc5
        ensures { result ≡ enable5 cartridge self value }
    {
        Mbc5 {
            enabled: cartridge.enabled(self.enabled, value),
            ..self
        }
    }

    // 2000..2FFF: the low eight bits; the ninth stays.
    fn select_low(self, cartridge: Cartridge, value: u8) -> Mbc5
        requires { 0 < cartridge.banks }
        ensures { result ≡ low5 cartridge self value }
    {
        let bank = nine_bits(value as u16, self.rom / 256);
        Mbc5 {
            rom: cartridge.masked(bank),
            ..self
        }
    }

    // 3000..3FFF: the ninth bit; the low eight stay.
    fn select_high(self, cartridge: Cartridge, value: u8) -> Mbc5
        requires { 0 < cartridge.banks }
        ensures { result ≡ ninth5 cartridge self value }
    {
        Mbc5 {
            rom: cartridge.masked(nine_bits(self.rom, value as u16)),
            ..self
        }
    }

    // 4000..5FFF: the RAM bank.
    fn select_ram(self, cartridge: Cartridge, value: u8) -> Mbc5
        ensures { result ≡ ram5 cartridge self value }
    {
        Mbc5 {
            ram: chosen_ram(value % 16, cartridge.ram_banks()),
            ..self
        }
    }

    pub fn after(self, cartridge: Cartridge, index: u16, value: u8) -> Mbc5
        requires { in_range cartridge (mapper.Mbc5 self) ≡ true }
        ensures { result ≡ after5 cartridge self index value }
    {
        match index {
            0x0000..=0x1FFF => self.enable(cartridge, value),
            0x2000..=0x2FFF => self.select_low(cartridge, value),
            0x3000..=0x3FFF => self.select_high(cartridge, value),
            0x4000..=0x5FFF => self.select_ram(cartridge, value),
            _ => self,
        }
    }
}
