// The exports for a mapper's own two calls.
ghost use Rattle.entry.specs.EntryContracts.{MapperReads, MapperWrites};

#[unsafe(no_mangle)]
pub extern "C" fn pouch_mapper_read(
    image: &[u8],
    rom: &[u8],
    save: &[u8],
    index: u16,
    value: &mut u8,
) -> u8
    ensures { MapperReads image.now rom.now save.now index result value.new }
{
    host::mapper::pouch_mapper_read(image, rom, save, index, value)
}

#[unsafe(no_mangle)]
pub extern "C" fn pouch_mapper_write(image: &mut [u8], index: u16, byte: u8, value: &mut u32) -> u8
    ensures { MapperWrites image.old index byte result value.new image.new }
{
    host::mapper::pouch_mapper_write(image, index, byte, value)
}
