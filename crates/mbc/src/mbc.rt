// What is common to the mappers: the Rust's trait `Mbc` as an enum, and its two calls.
#![tactic(auto, unfolding(crate::specs::PanDocs::rom_place, crate::specs::Mbc::mapped, crate::specs::Mbc::source, crate::specs::Mbc::start, crate::specs::Mbc::fresh, crate::specs::Mbc::lengths, crate::specs::Mbc::read_byte, crate::specs::Mbc::write_byte))]

ghost use Rattle.std.specs.Prelude.{◌≡◌, true, [], ℕ, ◌<◌, ◌≤◌, length};
ghost use Rattle.mbc.specs.PanDocs.{rom_address, rom_place, ram_address};
ghost use Rattle.mbc.specs.Behaviour.{ram_where};
ghost use Rattle.mbc.specs.Mbc.{rom_len, ram_len, in_range, mapper_of, registers_of, mapped, start, ram_source, source, Within, read_at, kept, stored_at, answer, after, written, fresh, lengths, read_byte, write_byte, fresh_of, read_of, wrote_of};
ghost use Rattle.mbc.specs.declared.cartridge.Cartridge.{Cartridge};

use crate::cartridge::Cartridge;
use crate::held::Registers;
use crate::mbc1::Mbc1;
use crate::mbc2::Mbc2;
use crate::mbc5::Mbc5;
use crate::{mbc1, mbc2, mbc5, rom_only};
use numbers::Refusal;

// Kinds are the state image's: each mapper's file has its own.
#[derive(Clone, Copy, PartialEq, Eq)]
pub enum Mapper {
    RomOnly,
    Mbc1(Mbc1),
    Mbc2(Mbc2),
    Mbc5(Mbc5),
}

// The last kind. `fresh` is given a kind as a number, and `Registers` holds any number as one (held.rt), as the definitions `known` and `mapper_of` do: an
// enum of kinds would be made for this one test and taken apart at the next line.
const LAST: u8 = mbc5::KIND;

// The byte that a write asks the save to store.
#[derive(Clone, Copy, PartialEq, Eq)]
pub struct Stored {
    pub at: usize,
    pub value: u8,
}

// Where a read finds its byte; `Half` is a save byte of which the low half counts.
#[derive(Clone, Copy, PartialEq, Eq)]
pub enum Source {
    Rom(usize),
    Save(usize),
    Half(usize),
    Fixed(u8),
}

#[derive(Clone, Copy, PartialEq, Eq)]
pub struct Written {
    pub mapper: Mapper,
    pub answer: Option<Stored>,
}

// Whether a mapper answers for a place: 0000..7FFF and A000..BFFF.
pub fn is_mapped(index: u16) -> bool
    ensures { result ≡ mapped index }
{
    matches!(index, 0x0000..=0x7FFF | 0xA000..=0xBFFF)
}

// The address in ROM of a place in 4000..7FFF.
pub fn rom_address(bank: u16, index: u16) -> usize
    requires { 0x4000 ≤ index }
    ensures { result ≡ rom_address bank index }
{
    (index - 0x4000) as usize + bank as usize * 0x4000
}

// The address in ROM of a place in 0000..7FFF: 0000..3FFF is the first bank.
pub fn rom_place(bank: u16, index: u16) -> usize
    ensures { result ≡ rom_place bank index }
{
    if index < 0x4000 {
        return index as usize;
    }
    rom_address(bank, index)
}

// The address in RAM of a place in A000..BFFF. That the index is such a place, here, in `Source::of_ram`, `ram_source` and `source`, is a fact of the address
// that a caller gave, which is asked once above; an index of a type of its own would be made there and taken apart here.
pub fn ram_address(bank: u8, index: u16) -> usize
    requires { 0xA000 ≤ index }
    ensures { result ≡ ram_address bank index }
{
    (index - 0xA000) as usize + bank as usize * 0x2000
}

impl Source {
    // A bank of the cartridge's RAM, where it is on.
    pub fn of_ram(on: bool, bank: u8, index: u16) -> Source
        requires { 0xA000 ≤ index }
        ensures { result ≡ ram_where on bank index }
    {
        if on {
            return Source::Save(ram_address(bank, index));
        }
        Source::Fixed(0xFF)
    }

    // What a write of `value` asks of a save of `len` bytes: to store where a read would look.
    pub fn stored(self, len: usize, value: u8) -> Option<Stored>
        ensures { result ≡ stored_at len value self }
    {
        let asked = self.kept(value)?;
        if asked.at < len { Some(asked) } else { None }
    }

    // The same of an address that lies in the save.
    pub fn kept(self, value: u8) -> Option<Stored>
        ensures whole { result ≡ kept value self }
        ensures in_save { (len : ℕ) → Within 0 len self → result ≡ stored_at len value self }
    {
        match self {
            Source::Save(at) => Some(Stored { at, value }),
            Source::Half(at) => Some(Stored {
                at,
                value: value % 16,
            }),
            Source::Rom(_) | Source::Fixed(_) => None,
        }
    }
}

// A mapper's fields as numbers.
impl From<Mapper> for Registers {
    ghost from_gives = { λ m r. r ≡ registers_of m };

    fn from(mapper: Mapper) -> Registers {
        match mapper {
            Mapper::RomOnly => Registers::start(rom_only::KIND),
            Mapper::Mbc1(m) => Registers::from(m),
            Mapper::Mbc2(m) => Registers::from(m),
            Mapper::Mbc5(m) => Registers::from(m),
        }
    }
}

// The mapper that has these fields; a kind past the last counts as the last.
impl From<Registers> for Mapper {
    ghost from_gives = { λ r m. m ≡ mapper_of r };

    fn from(r: Registers) -> Mapper {
        match r.kind {
            rom_only::KIND => Mapper::RomOnly,
            mbc1::KIND => Mapper::Mbc1(Mbc1::from(r)),
            mbc2::KIND => Mapper::Mbc2(Mbc2::from(r)),
            _ => Mapper::Mbc5(Mbc5::from(r)),
        }
    }
}

impl Mapper {
    fn start(kind: u8) -> Mapper
        ensures { result ≡ start kind }
    {
        Mapper::from(Registers::start(kind))
    }

    pub fn ram_len(self, cartridge: Cartridge) -> usize
        ensures { result ≡ ram_len cartridge self }
    {
        let held = Registers::from(self);
        held.ram_len(cartridge)
    }

    // Whether a lent ROM and save have the lengths that they must have.
    pub fn lengths(self, cartridge: Cartridge, rom: usize, save: usize) -> bool
        ensures { result ≡ lengths cartridge self rom save }
    {
        rom == cartridge.rom_len() && save == self.ram_len(cartridge)
    }

    // One of three matches of a mapper, beside its numbers and `after`: each gives another type, and its arms call another function. One match for all three
    // would need a trait of the mappers, with three methods and their laws.
    // Ten calls have this as a `requires`. The definitions speak of any pair, in range or not, as `write_byte` refuses one by number: a type of a pair in range
    // would carry its proof into each record that they make, and be taken apart at each call.
    pub fn in_range(self, cartridge: Cartridge) -> bool
        ensures { result ≡ in_range cartridge self }
    {
        match self {
            Mapper::RomOnly => rom_only::in_range(cartridge),
            Mapper::Mbc1(m) => m.in_range(cartridge),
            Mapper::Mbc2(m) => m.in_range(cartridge),
            Mapper::Mbc5(m) => m.in_range(cartridge),
        }
    }

    // Where a read finds its byte.
    pub fn source(self, cartridge: Cartridge, index: u16) -> Source
        requires { mapped index ≡ true }
        ensures { result ≡ source cartridge self index }
    {
        let held = Registers::from(self);
        if index < 0x8000 {
            return Source::Rom(rom_place(held.rom, index));
        }
        held.ram_source(cartridge, index)
    }

    // The registers after a write.
    pub fn after(self, cartridge: Cartridge, index: u16, value: u8) -> Mapper
        requires { in_range cartridge self ≡ true }
        ensures { result ≡ after cartridge self index value }
    {
        match self {
            Mapper::RomOnly => Mapper::RomOnly,
            Mapper::Mbc1(m) => Mapper::Mbc1(m.after(cartridge, index, value)),
            Mapper::Mbc2(m) => Mapper::Mbc2(m.after(cartridge, index, value)),
            Mapper::Mbc5(m) => Mapper::Mbc5(m.after(cartridge, index, value)),
        }
    }

    // Whether a write there leaves the registers as they are, whatever it writes.
    pub fn keeps(self, index: u16) -> bool
        ensures { result ≡ true → (c : Cartridge) (v : ℕ) → after c self index v ≡ self }
    {
        0x8000 <= index
    }

    // For the bus, which has tested the state, the lengths and the index. Here and below the cartridge, what is lent, the index and the value stay a
    // parameter each: each is used by itself, and a caller, who holds them apart, would make the struct that this takes apart.
    pub fn read(self, cartridge: Cartridge, rom: &[u8], save: &[u8], index: u16) -> u8
        requires { (in_range cartridge self ≡ true) × ((mapped index ≡ true) × ((length rom.now ≡ rom_len cartridge) × (length save.now ≡ ram_len cartridge self))) }
        ensures { result ≡ read_at cartridge self rom.now save.now index }
    {
        let held = Registers::from(self);
        if index < 0x8000 {
            return rom[rom_place(held.rom, index)];
        }
        held.read_ram(cartridge, save, index)
    }

    // For the bus, which has tested the state and the index, and stores what is answered.
    pub fn write(self, cartridge: Cartridge, index: u16, value: u8) -> Written
        requires { (in_range cartridge self ≡ true) × (mapped index ≡ true) }
        ensures { result ≡ written cartridge self index value }
    {
        let len = self.ram_len(cartridge);
        let source = self.source(cartridge, index);
        let answer = source.stored(len, value);
        let mapper = self.after(cartridge, index, value);
        Written { mapper, answer }
    }

    // A new cartridge with its mapper as it starts; a description out of range is refused.
    pub fn fresh(kind: u8, banks: u16, code: u8) -> Result<(Cartridge, Mapper), Refusal>
        ensures { fresh_of result ≡ fresh kind banks code }
    {
        if LAST < kind {
            return Err(Refusal::OutOfRange);
        }
        let cartridge = Cartridge { banks, code };
        let mapper = Mapper::start(kind);
        if !mapper.in_range(cartridge) {
            return Err(Refusal::OutOfRange);
        }
        Ok((cartridge, mapper))
    }

    // As `read_byte`, for who has tested the state.
    pub fn read_lent(
        self,
        cartridge: Cartridge,
        rom: &[u8],
        save: &[u8],
        index: u16,
    ) -> Result<u8, Refusal>
        requires { in_range cartridge self ≡ true }
        ensures { read_of result ≡ read_byte cartridge self rom.now save.now index }
    {
        if !self.lengths(cartridge, rom.len(), save.len()) {
            return Err(Refusal::WrongLength);
        }
        if !is_mapped(index) {
            return Err(Refusal::Outside);
        }
        Ok(self.read(cartridge, rom, save, index))
    }

    // The Rust's `read_byte`, which refuses a state out of range, lengths that are not the cartridge's, and a place that no mapper answers for.
    pub fn read_byte(
        self,
        cartridge: Cartridge,
        rom: &[u8],
        save: &[u8],
        index: u16,
    ) -> Result<u8, Refusal>
        ensures { read_of result ≡ read_byte cartridge self rom.now save.now index }
    {
        if !self.in_range(cartridge) {
            return Err(Refusal::OutOfRange);
        }
        self.read_lent(cartridge, rom, save, index)
    }

    // The Rust's `write_byte`, which refuses a state out of range and a place that no mapper answers for.
    pub fn write_byte(self, cartridge: Cartridge, index: u16, value: u8) -> Result<Written, Refusal>
        ensures { wrote_of self result ≡ write_byte cartridge self index value }
    {
        if !self.in_range(cartridge) {
            return Err(Refusal::OutOfRange);
        }
        if !is_mapped(index) {
            return Err(Refusal::Outside);
        }
        Ok(self.write(cartridge, index, value))
    }
}
