// The cartridge mappers: where a read finds its byte, what a write does to a mapper's registers, and what it asks of the save.
// A mapper touches neither save nor log. The files follow the Rust's; specs/ has what is promised.
#![tactic(auto)]

mod cartridge;
mod held;
mod mbc;
mod mbc1;
mod mbc2;
mod mbc5;
mod rom_only;

pub use cartridge::Cartridge;
pub use held::Registers;
pub use mbc::{Mapper, Source, Stored, Written, is_mapped, rom_place};
pub use mbc1::{KIND as MBC1_KIND, Mbc1};
pub use mbc2::{KIND as MBC2_KIND, Mbc2};
pub use mbc5::{KIND as MBC5_KIND, Mbc5};
pub use rom_only::KIND as ROM_ONLY_KIND;
