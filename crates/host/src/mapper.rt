// Entries for a mapper's own two calls, on the mapper that the image holds. They touch neither save nor log.
ghost use Rattle.std.specs.Prelude.{true, ◌≡◌};
ghost use Rattle.std.specs.Option.{unwrap_or};
ghost use Rattle.std.specs.Result.{result_unwrap_or};
ghost use Rattle.image.specs.Load.{cartridge_of, registers_in};
ghost use Rattle.image.specs.Patches.{fields, Mapped};
ghost use Rattle.mbc.specs.Mbc as mbc;
ghost use Rattle.entry.specs.EntryContracts.{MapperReads, MapperWrites};
ghost use Rattle.entry.specs.Entry.{given_of, mapper_read_entry, answer_number};
ghost use Rattle.numbers.specs.Refusal.{number_given};

use crate::answers::hand;
use mbc::{Mapper, Stored};
use numbers::Refusal;

// The byte at 0000..7FFF or A000..BFFF.
pub fn pouch_mapper_read(image: &[u8], rom: &[u8], save: &[u8], index: u16, value: &mut u8) -> u8
    ensures { MapperReads image.now rom.now save.now index result value.new }
{
    hand(read_mapper(image, rom, save, index), 0, value)
}

fn read_mapper(image: &[u8], rom: &[u8], save: &[u8], index: u16) -> Result<u8, Refusal>
    ensures { given_of result ≡ mapper_read_entry image.now rom.now save.now index }
{
    image::taken(image)?;
    let mapper = Mapper::from(image::registers_at(image));
    let cartridge = image::cartridge_at(image);
    mapper.read_lent(cartridge, rom, save, index)
}

// The record that the bus would log for a stored byte.
fn record_stored(answer: Option<Stored>) -> Option<u32>
    ensures { unwrap_or result 0 ≡ answer_number answer }
{
    let Some(stored) = answer else {
        return None;
    };
    Some(savelog::record_number(stored.at % savelog::ADDRESS_END, stored.value))
}

// The record of what the image's mapper answers. Below 8000 nothing is stored.
fn record_of(image: &[u8], index: u16, byte: u8) -> Option<u32>
    requires { Mapped image.now × (mbc.mapped index ≡ true) }
    ensures { unwrap_or result 0 ≡ answer_number
        (mbc.answer (cartridge_of (fields image.now)) (mbc.mapper_of (registers_in (fields image.now))) index byte) }
{
    if index < memory::VRAM_START {
        return None;
    }
    let registers = image::registers_at(image);
    let cartridge = image::cartridge_at(image);
    record_stored(registers.answer(cartridge, index, byte))
}

// What the mapper answers, 0 where nothing is stored, and its registers in the image.
pub fn pouch_mapper_write(image: &mut [u8], index: u16, byte: u8, value: &mut u32) -> u8
    ensures { MapperWrites image.old index byte result value.new image.new }
{
    hand(write_mapper(image, index, byte), 0, value)
}

fn write_mapper(image: &mut [u8], index: u16, byte: u8) -> Result<u32, Refusal>
    ensures { MapperWrites image.old index byte (number_given result) (result_unwrap_or result 0) image.new }
{
    image::taken(image)?;
    if !mbc::is_mapped(index) {
        return Err(Refusal::Outside);
    }
    let record = record_of(image, index, byte);
    put_bytes::put_mapper(image, index, byte);
    Ok(record.unwrap_or(0))
}
