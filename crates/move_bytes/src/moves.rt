// OAM DMA and an HDMA block whole: the bytes, and then the registers.
ghost use Rattle.std.specs.Prelude.{◌≡◌, ℕ, length};
ghost use Rattle.image.specs.Layout.{image_len};
ghost use Rattle.image.specs.Load.{load_call};
ghost use Rattle.memory.specs.World.{fixed};
ghost use Rattle.copies.specs.Copies.{oam_copy};
ghost use Rattle.registers.specs.Transfers.{block_copy};
ghost use Rattle.move_bytes.specs.Transfers.{Own, Moved, ended_put};

use crate::{blocks, rows};
use hdma::Ended;
use in_place::transfers::hdma_at;

// FF51..FF55 and the hidden addresses.
pub fn put_ended(image: &mut [u8], ended: Ended)
    requires { length image.old ≡ image_len }
    ensures { image.new ≡ ended_put image.old ended }
{
    image[0x151] = ended.r51;
    image[0x152] = ended.r52;
    image[0x153] = ended.r53;
    image[0x154] = ended.r54;
    image[0x155] = ended.r55;
    image::put_hdma(image, ended.hdma);
}

// OAM DMA. OAM is the first bytes of an image.
pub fn move_oam(
    image: &mut [u8],
    rom: &[u8],
    vram: &[u8],
    wram: &[u8],
    save: &[u8],
    sound: &[u8],
    page: u8,
)
    requires { Own (fixed rom.now sound.now) image.old vram.now wram.now save.now }
    ensures { (value : ℕ) → Moved (fixed rom.now sound.now) image.old vram.now wram.now save.now (oam_copy page) value image.new vram.now }
{
    let copy = copies::oam_copy(page);
    if copy.count == 0 {
        return;
    }
    let mut bytes = [0u8; 160];
    rows::read(image, rom, vram, wram, save, sound, copy.source, &mut bytes);
    packing::put(image, 0, &bytes);
}

// One HDMA block, enabled or not.
pub fn move_block(
    image: &mut [u8],
    rom: &[u8],
    vram: &mut [u8],
    wram: &[u8],
    save: &[u8],
    sound: &[u8],
)
    requires { Own (fixed rom.now sound.now) image.old vram.old wram.now save.now }
    ensures { (value : ℕ) → Moved (fixed rom.now sound.now) image.old vram.old wram.now save.now (block_copy (load_call image.old).state) value image.new vram.new }
{
    let hdma = hdma_at(image);
    let source = hdma::source_of(hdma);
    let destination = hdma::destination_of(hdma);
    blocks::copy_all(image, rom, vram, wram, save, sound, source, destination, 16);
    let ended = hdma::end_block(hdma, image[0x155]);
    put_ended(image, ended);
}
