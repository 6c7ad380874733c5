// A mapper's fields as numbers, as the state image has them: what is asked of a mapper there is asked of them.
#![tactic(auto, unfolding(crate::specs::Registers::same, crate::specs::Mbc::sound, crate::specs::Mbc::ram_len, crate::specs::Mbc::ram_source))]

ghost use Rattle.std.specs.Prelude.{◌≡◌, true, cond, ◌&&◌, [], Some, None, ◌<◌, ◌≤◌, eqb, length};
ghost use Rattle.mbc.specs.Registers.{starting};
ghost use Rattle.mbc.specs.Mbc.{kind_mbc1, from1, ram_bank1, ram_len, in_range, behaviour, mapper_of, registers_of, sound, ram_source, byte_of, answer, after};

use crate::cartridge::Cartridge;
use crate::mbc::{Mapper, Source, Stored};
use crate::mbc1::Mbc1;
use crate::mbc2::Mbc2;
use crate::mbc5::Mbc5;
use crate::{mbc1, mbc2, rom_only};

// Those that the mapper lacks hold their starting values. Any numbers: `sound` says which a mapper has, and `mapper_of` speaks of a kind past the last, so the
// kind is no enum here.
#[derive(Clone, Copy, PartialEq, Eq)]
pub struct Registers {
    pub kind: u8,
    pub rom: u16,
    pub ram: u8,
    pub mode: u8,
    pub enabled: u8,
    pub high: u8,
}

impl Registers {
    // ROM bank 1, all else 0 or off.
    pub fn start(kind: u8) -> Registers
        ensures { result ≡ starting kind }
    {
        Registers {
            kind,
            rom: 1,
            ram: 0,
            mode: 0,
            enabled: 0,
            high: 0,
        }
    }

    // Whether a mapper has them: it gives them back, so its kind is known, and a field that it lacks holds its starting value.
    pub fn is_sound(self) -> bool
        ensures { result ≡ sound self }
    {
        self == Registers::from(Mapper::from(self))
    }

    // Whether a mapper has them, and is in range: by the kind, and MBC5 by the fields that it must ask for alone. As `is_sound` and `Mapper::in_range` in one
    // line it misses budgets (bench/budgets.txt): a read of ROM with MBC5's 512 banks takes 312 instructions, 337 where it is not inlined, for a budget of
    // 295, and the timer's update 248 and 273 for 229. As it stands they take 284 and 220.
    // The kinds are halved: of four tests in a row the compiler makes a table of addresses. Inlined, it has every call of `image::taken` store more
    // registers, also where a smaller test answers first: 13 instructions, by which a read of ROM with MBC2 takes 220 for 212, and without a mapper 226 for
    // 218. Not inlined they take 207 and 213.
    #[inline(never)]
    pub fn fit(self, cartridge: Cartridge) -> bool
        ensures { result ≡ (sound self && in_range cartridge (mapper_of self)) }
    {
        if self.kind < mbc2::KIND {
            if self.kind == rom_only::KIND {
                return rom_only::fit(self, cartridge);
            }
            return Mbc1::fit(self, cartridge);
        }
        if self.kind == mbc2::KIND {
            return Mbc2::fit(self, cartridge);
        }
        Mbc5::fit(self, cartridge)
    }

    // The RAM bank at A000..BFFF: Mbc1's, or Mbc5's.
    fn ram_bank(self) -> u8
        ensures { result ≡ cond (eqb self.kind kind_mbc1) (ram_bank1 (from1 self)) self.ram }
    {
        if self.kind == mbc1::KIND {
            let m = Mbc1::from(self);
            return m.ram_bank();
        }
        self.ram
    }

    // Where a read at A000..BFFF finds its byte.
    pub fn ram_source(self, cartridge: Cartridge, index: u16) -> Source
        requires { 0xA000 ≤ index }
        ensures { result ≡ ram_source cartridge (mapper_of self) index }
    {
        if self.kind == mbc2::KIND {
            let m = Mbc2::from(self);
            return m.ram_source(index);
        }
        if self.kind == rom_only::KIND {
            return rom_only::ram_source(cartridge, index);
        }
        Source::of_ram(self.enabled == 1, self.ram_bank(), index)
    }

    // Bytes of RAM of its own, where not the RAM code says how many.
    fn own_ram(self) -> Option<usize>
        ensures { result ≡ cond (eqb (behaviour (mapper_of self)).own_ram 0) None (Some (behaviour (mapper_of self)).own_ram) }
    {
        if self.kind == mbc2::KIND {
            return Some(mbc2::RAM_LEN);
        }
        None
    }

    pub fn ram_len(self, cartridge: Cartridge) -> usize
        ensures { result ≡ ram_len cartridge (mapper_of self) }
    {
        match self.own_ram() {
            Some(own) => own,
            None => cartridge.ram_len(),
        }
    }

    // What a write at A000..BFFF asks of the save, for the bus, which has tested the state.
    pub fn answer(self, cartridge: Cartridge, index: u16, value: u8) -> Option<Stored>
        requires { (in_range cartridge (mapper_of self) ≡ true) × ((0xA000 ≤ index) × (index < 0xC000)) }
        ensures { result ≡ answer cartridge (mapper_of self) index value }
    {
        let source = self.ram_source(cartridge, index);
        source.kept(value)
    }

    // A000..BFFF, for the bus, which has tested the state and the save's length.
    pub fn read_ram(self, cartridge: Cartridge, save: &[u8], index: u16) -> u8
        requires { (in_range cartridge (mapper_of self) ≡ true) × (((0xA000 ≤ index) × (index < 0xC000)) × (length save.now ≡ ram_len cartridge (mapper_of self))) }
        ensures { result ≡ byte_of [] save.now (ram_source cartridge (mapper_of self) index) }
    {
        match self.ram_source(cartridge, index) {
            Source::Rom(_) => 0,
            Source::Save(at) => save[at],
            Source::Half(at) => save[at] % 16,
            Source::Fixed(byte) => byte,
        }
    }

    // The registers after a write.
    pub fn after(self, cartridge: Cartridge, index: u16, value: u8) -> Registers
        requires { in_range cartridge (mapper_of self) ≡ true }
        ensures { result ≡ registers_of (after cartridge (mapper_of self) index value) }
    {
        let mapper = Mapper::from(self);
        let next = mapper.after(cartridge, index, value);
        Registers::from(next)
    }
}
