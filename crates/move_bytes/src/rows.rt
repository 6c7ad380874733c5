// Bytes of the bus that lie within 256 from a multiple of 256, read at once: all are in one region. Those of ROM, video and work memory, OAM and high memory
// stand in a row. That `source` and `out` keep to that (`Row`) is a clause on a plain number and a length: no type of std has them as one value.
ghost use Rattle.std.specs.Prelude.{◌≡◌, ℕ, ◌+◌, ◌<◌, ◌≤◌, ◌⊎◌, length, slice_index};
ghost use Rattle.memory.specs.Region.{vram_start, hram_start, region_of};
ghost use Rattle.memory.specs.World.{fixed};
ghost use Rattle.memory.specs.declared.region.Region.TheVariants.{Oam};
ghost use Rattle.move_bytes.specs.Transfers.{Own, Row, Read};

use in_place::colour::banks_at;
use memory::Region;

// Bytes in a row, from `at` on.
fn take(bytes: &[u8], at: usize, out: &mut [u8])
    requires { at + length out.old ≤ length bytes.now }
    ensures { (k : ℕ) → k < length out.new → slice_index out.new k ≡ slice_index bytes.now (at + k) }
{
    let end = at + out.len();
    out.copy_from_slice(&bytes[at..end]);
}

// One byte after the other.
fn take_each(
    image: &[u8],
    rom: &[u8],
    vram: &[u8],
    wram: &[u8],
    save: &[u8],
    sound: &[u8],
    source: u16,
    out: &mut [u8],
)
    requires { Own (fixed rom.now sound.now) image.now vram.now wram.now save.now × Row source (length out.old) }
    ensures { Read (fixed rom.now sound.now) image.now vram.now wram.now save.now source out.new }
{
    for (i, byte) in out.iter_mut().enumerate() {
        *byte = take_bytes::byte_at(image, rom, vram, wram, save, sound, source + i as u16);
    }
}

// ROM, in the banks that the mapper selects.
fn take_rom(
    image: &[u8],
    rom: &[u8],
    vram: &[u8],
    wram: &[u8],
    save: &[u8],
    sound: &[u8],
    source: u16,
    out: &mut [u8],
)
    requires { Own (fixed rom.now sound.now) image.now vram.now wram.now save.now × (Row source (length out.old) × (source < vram_start)) }
    ensures { Read (fixed rom.now sound.now) image.now vram.now wram.now save.now source out.new }
{
    let bank = image::registers_at(image).rom;
    take(rom, mbc::rom_place(bank, source), out);
}

// OAM and the page from FF80 on, in a row from an image's first byte: no register is there, the bytes read as they are.
fn take_own(
    image: &[u8],
    rom: &[u8],
    vram: &[u8],
    wram: &[u8],
    save: &[u8],
    sound: &[u8],
    source: u16,
    out: &mut [u8],
)
    requires { Own (fixed rom.now sound.now) image.now vram.now wram.now save.now × (Row source (length out.old) × ((region_of source ≡ Oam) ⊎ (hram_start ≤ source))) }
    ensures { Read (fixed rom.now sound.now) image.now vram.now wram.now save.now source out.new }
{
    take(image, (source - memory::OAM_START) as usize, out);
}

// The bytes from `source` on, into `out`.
pub fn read(
    image: &[u8],
    rom: &[u8],
    vram: &[u8],
    wram: &[u8],
    save: &[u8],
    sound: &[u8],
    source: u16,
    out: &mut [u8],
)
    requires { Own (fixed rom.now sound.now) image.now vram.now wram.now save.now × Row source (length out.old) }
    ensures { Read (fixed rom.now sound.now) image.now vram.now wram.now save.now source out.new }
{
    if memory::HRAM_START <= source {
        take_own(image, rom, vram, wram, save, sound, source, out);
        return;
    }
    let banks = banks_at(image);
    match memory::region_of(source) {
        Region::Rom => take_rom(image, rom, vram, wram, save, sound, source, out),
        Region::Vram => take(vram, mmu::regions::vram_at(banks.vram, source), out),
        Region::Wram => take(wram, mmu::regions::wram_at(banks.wram, source), out),
        Region::Oam => take_own(image, rom, vram, wram, save, sound, source, out),
        _ => take_each(image, rom, vram, wram, save, sound, source, out),
    }
}
