// The letters W and R: a mapper's write, and its read over the contents of lines::pattern.
use lines::answer::{Ours, padded};
use lines::pattern;
use mbc::{Cartridge, Mapper, Registers, Source, Stored};
use numbers::Refusal;

fn cartridge_of(given: &[u8; 12]) -> Cartridge {
    Cartridge {
        banks: Cartridge::banks_of(given[1]),
        code: given[2],
    }
}

// The mapper of a line, which says no more than the mapper holds.
fn mapper_of(given: &[u8; 12]) -> Result<Mapper, Refusal> {
    let held = Registers {
        kind: given[0],
        rom: u16::from_be_bytes([given[3], given[4]]),
        ram: given[5],
        mode: given[6],
        enabled: given[7],
        high: given[8],
    };
    if held.is_sound() {
        Ok(Mapper::from(held))
    } else {
        Err(Refusal::Outside)
    }
}

fn index_of(given: &[u8; 12]) -> u16 {
    u16::from_be_bytes([given[9], given[10]])
}

// What a write asks of the save: whether it stores, where, and what.
fn asked(answer: Option<Stored>) -> Result<[u8; 5], Refusal> {
    let Some(Stored { at, value }) = answer else {
        return Ok([0; 5]);
    };
    if 16777215 < at {
        return Err(Refusal::Outside);
    }
    let [_, a, b, c] = (at as u32).to_be_bytes();
    Ok([1, a, b, c, value])
}

pub fn write(given: &[u8; 12]) -> Ours {
    let mapper = mapper_of(given)?;
    let wrote = mapper.write_byte(cartridge_of(given), index_of(given), given[11])?;
    let after = Registers::from(wrote.mapper);
    if after.kind != given[0] {
        return Err(Refusal::Outside);
    }
    let [high, low] = after.rom.to_be_bytes();
    let [stored, a, b, c, value] = asked(wrote.answer)?;
    Ok(padded(&[
        high,
        low,
        after.ram,
        after.mode,
        after.enabled,
        after.high,
        stored,
        a,
        b,
        c,
        value,
    ]))
}

// The byte at a place.
fn byte_at(source: Source) -> u8 {
    match source {
        Source::Rom(at) => pattern::rom_byte(at),
        Source::Save(at) => pattern::save_byte(at),
        Source::Half(at) => pattern::save_byte(at) % 16,
        Source::Fixed(byte) => byte,
    }
}

// Whether the public read gives that byte too. A ROM longer than the one at hand is read by its places only.
fn reads(
    mapper: Mapper,
    cartridge: Cartridge,
    rom: &[u8],
    save: &[u8],
    index: u16,
    byte: u8,
) -> bool {
    let banked = cartridge.rom_len();
    let saved = mapper.ram_len(cartridge);
    if rom.len() < banked {
        return true;
    }
    if save.len() < saved {
        return false;
    }
    mapper.read_byte(cartridge, &rom[..banked], &save[..saved], index) == Ok(byte)
}

pub fn read(given: &[u8; 12], rom: &[u8], save: &[u8]) -> Ours {
    let mapper = mapper_of(given)?;
    let cartridge = cartridge_of(given);
    let index = index_of(given);
    if !mapper.in_range(cartridge) || !mbc::is_mapped(index) {
        return Err(Refusal::Outside);
    }
    let byte = byte_at(mapper.source(cartridge, index));
    if !reads(mapper, cartridge, rom, save, index, byte) {
        return Err(Refusal::Outside);
    }
    Ok(padded(&[byte]))
}
