// Blocks of 16 bytes from multiples of 16, into video memory at multiples of 16: a block is the one that it goes to, or apart from it.
ghost use Rattle.std.specs.Prelude.{◌≡◌, ◌%◌};
ghost use Rattle.memory.specs.World.{fixed};
ghost use Rattle.move_bytes.specs.Transfers.{Own, Lands, Copied};

use crate::rows;
use in_place::colour::banks_at;

// One block.
fn copy(
    image: &[u8],
    rom: &[u8],
    vram: &mut [u8],
    wram: &[u8],
    save: &[u8],
    sound: &[u8],
    source: u16,
    destination: u16,
)
    requires { Own (fixed rom.now sound.now) image.now vram.old wram.now save.now × ((source % 16 ≡ 0) × Lands destination 16) }
    ensures { Copied (fixed rom.now sound.now) image.now vram.old wram.now save.now source destination 16 vram.new }
{
    let mut bytes = [0u8; 16];
    rows::read(image, rom, vram, wram, save, sound, source, &mut bytes);
    let at = mmu::regions::vram_at(banks_at(image).vram, destination);
    packing::put(vram, at, &bytes);
}

// As many blocks as `count` bytes are, in rising order, so that later ones read what earlier ones wrote. The source wraps.
pub fn copy_all(
    image: &[u8],
    rom: &[u8],
    vram: &mut [u8],
    wram: &[u8],
    save: &[u8],
    sound: &[u8],
    source: u16,
    destination: u16,
    count: u16,
)
    requires { Own (fixed rom.now sound.now) image.now vram.old wram.now save.now × (((source % 16 ≡ 0) × (count % 16 ≡ 0)) × Lands destination count) }
    ensures { Copied (fixed rom.now sound.now) image.now vram.old wram.now save.now source destination count vram.new }
{
    for i in (0..count).step_by(16) {
        let from = source.wrapping_add(i);
        copy(image, rom, vram, wram, save, sound, from, destination + i);
    }
}
