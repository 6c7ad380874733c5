// Tests of a mapper that are enough, on the number that has all of it (src/layout.rt has what each part counts there): each is a mask. That the number has
// those bits and no more is what the load of it says once, in `fields::mapping_at`; a type of such numbers would be taken apart at each test.
ghost use Rattle.std.specs.Prelude.{true, ◌≡◌, ◌^◌, ◌<◌, IfSome};
ghost use Rattle.image.specs.Patches.{mapping_bits, mapper_by, CommonKind, Common};

use crate::layout;
use mbc::Cartridge;

// The kinds, as numbers of this width: each test is a mask on the number that has all of the mapper, so an enum would be made of its bits and then asked.
const ROM_ONLY: u32 = mbc::ROM_ONLY_KIND as u32;

const MBC2: u32 = mbc::MBC2_KIND as u32;

const MBC5: u32 = mbc::MBC5_KIND as u32;

// Mbc1, or Mbc5 without what it lacks: the odd kinds, bit by bit, so that each test is a mask.
fn common_kind(n: u32) -> bool
    requires { n < 2 ^ mapping_bits }
    ensures { result ≡ true → CommonKind n }
{
    if n / layout::KIND_UNIT % 2 != 1 {
        return false;
    }
    if n / layout::KIND_UNIT / 2 == 1 {
        if n / layout::BANKING_UNIT % 2 != 0 {
            return false;
        }
        return n % layout::HIGH_SIZE == 0;
    }
    true
}

// The commonest mappers, Mbc1 and Mbc5 of at most 128 banks, in range: the length of the save beside it. None where a test fails.
pub fn common_save(n: u32) -> Option<usize>
    requires { n < 2 ^ mapping_bits }
    ensures { IfSome result (Common n) }
{
    if n / layout::LOG_UNIT % layout::LOG_SIZE > 7 {
        return None;
    }
    if !common_kind(n) {
        return None;
    }
    let log = n / layout::LOG_UNIT % 8;
    if log == 0 {
        return None;
    }
    let rom = (n / layout::ROM_UNIT % layout::ROM_SIZE) as u16;
    if Cartridge::banks_of(log as u8) <= rom {
        return None;
    }
    // By the RAM code, bit by bit. 3: the RAM bank has two bits. 2: it and the mode, five bits side by side, are 0. 4: with Mbc5 only, any of 16 banks. 0:
    // enabled, behind those five, is 0 too. What else fails stands behind its last test, so that both are one mask.
    if n / layout::CODE_UNIT % 2 != 0 {
        if n / layout::CODE_UNIT / 2 % 4 != 1 {
            return None;
        }
        if n / layout::RAM_UNIT / 4 % 4 != 0 {
            return None;
        }
        return Some(0x8000);
    }
    if n / layout::CODE_UNIT / 2 % 2 != 0 {
        if n / layout::CODE_UNIT / 2 / 2 % 2 != 0 {
            return None;
        }
        if n / layout::BANKING_UNIT % 32 != 0 {
            return None;
        }
        return Some(0x2000);
    }
    if n / layout::CODE_UNIT / 2 / 2 % 2 != 0 {
        if n / layout::KIND_UNIT != MBC5 {
            return None;
        }
        return Some(0x20000);
    }
    if n / layout::ENABLED_UNIT % 64 != 0 {
        return None;
    }
    Some(0)
}

// RomOnly and Mbc2, in range.
pub fn small_fits(n: u32) -> bool
    requires { n < 2 ^ mapping_bits }
    ensures { result ≡ true → mapper_by n ≡ true }
{
    // RomOnly: two banks; the ROM bank is 1, and all behind it 0.
    if n / layout::KIND_UNIT == ROM_ONLY {
        if n / layout::LOG_UNIT != 1 {
            return false;
        }
        if n % layout::CODE_UNIT != layout::ROM_UNIT {
            return false;
        }
        if n / layout::CODE_UNIT % layout::CODE_SIZE > 3 {
            return false;
        }
        return n / layout::CODE_UNIT % layout::CODE_SIZE != 1;
    }
    if n / layout::KIND_UNIT != MBC2 {
        return false;
    }
    if n / layout::CODE_UNIT % layout::CODE_SIZE != 0 {
        return false;
    }
    if n / layout::BANKING_UNIT % 32 != 0 {
        return false;
    }
    if n % layout::HIGH_SIZE != 0 {
        return false;
    }
    if n / layout::LOG_UNIT % layout::LOG_SIZE > 4 {
        return false;
    }
    let log = n / layout::LOG_UNIT % 8;
    if log == 0 {
        return false;
    }
    let rom = (n / layout::ROM_UNIT % layout::ROM_SIZE) as u16;
    rom < Cartridge::banks_of(log as u8)
}
