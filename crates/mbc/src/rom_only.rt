// No mapper, as the Rust's rom_only.rs: two ROM banks, and RAM that is always on. It has no registers.
ghost use Rattle.std.specs.Prelude.{◌≡◌, ◌&&◌, ◌≤◌};
ghost use Rattle.mbc.specs.Registers.{starting, same};
ghost use Rattle.mbc.specs.Mbc.RomOnlyRules.{kind_rom_only, rom_only};
ghost use Rattle.mbc.specs.Mbc.{in_range};
ghost use Rattle.mbc.specs.declared.mbc.Mapper.TheVariants as mapper;

use crate::cartridge::Cartridge;
use crate::held::Registers;
use crate::mbc::Source;

pub const KIND: u8 = 0;

// There is no state: the description is all.
pub fn in_range(cartridge: Cartridge) -> bool
    ensures { result ≡ rom_only.described cartridge }
{
    cartridge.describes(2, 3)
}

// Whether the registers are as they start, which they stay, and the description is in range.
#[tactic(auto, using(crate::proofs::Cases::RomOnlyLaws::rom_only_starts), unfolding(crate::specs::Registers::same, crate::specs::Mbc::described))]
pub fn fit(r: Registers, cartridge: Cartridge) -> bool
    ensures { result ≡ (same r (starting kind_rom_only) && in_range cartridge mapper.RomOnly) }
{
    r == Registers::start(KIND) && in_range(cartridge)
}

// A000..BFFF
pub fn ram_source(cartridge: Cartridge, index: u16) -> Source
    requires { 0xA000 ≤ index }
    ensures { result ≡ rom_only.ram_source cartridge index }
{
    Source::of_ram(cartridge.code != 0, 0, index)
}
