// The writes of FF46 and FF55, which start a transfer.
ghost use Rattle.std.specs.Prelude.{◌≡◌, ℕ, ◌≢◌};
ghost use Rattle.image.specs.Layout.{image_of};
ghost use Rattle.image.specs.Load.{load_call};
ghost use Rattle.memory.specs.World.{fixed};
ghost use Rattle.registers.specs.Transfers.{transfer_put, block_copy, general_copy};
ghost use Rattle.move_bytes.specs.Transfers.{Own, Moved, Wrote, Kept};

use crate::{blocks, moves};
use hdma::{Start, Written};
use in_place::colour::is_colour;
use in_place::transfers::{hdma_at, mode_at, put_written};

// A general transfer.
fn move_general(
    image: &mut [u8],
    rom: &[u8],
    vram: &mut [u8],
    wram: &[u8],
    save: &[u8],
    sound: &[u8],
    value: u8,
)
    requires { Own (fixed rom.now sound.now) image.old vram.old wram.now save.now }
    ensures { Moved (fixed rom.now sound.now) image.old vram.old wram.now save.now (general_copy (load_call image.old).state value) value image.new vram.new }
{
    let hdma = hdma_at(image);
    let source = hdma::source_of(hdma);
    let destination = hdma::destination_of(hdma);
    let count = copies::landing(destination, hdma::length(value));
    blocks::copy_all(
        image,
        rom,
        vram,
        wram,
        save,
        sound,
        source,
        destination,
        count,
    );
    let ended = hdma::end_general(hdma, value);
    moves::put_ended(image, ended);
}

// HDMA that begins with a block.
fn put_block(
    image: &mut [u8],
    rom: &[u8],
    vram: &mut [u8],
    wram: &[u8],
    save: &[u8],
    sound: &[u8],
    written: Written,
)
    requires { Own (fixed rom.now sound.now) image.old vram.old wram.now save.now × Kept (load_call image.old).state.core.banks.colour (load_call image.old).state.core.hdma written }
    ensures { (value : ℕ) → Moved (fixed rom.now sound.now) (image_of (transfer_put (load_call image.old).state 0x55 written)) vram.old wram.now save.now (block_copy (load_call image.old).state) value image.new vram.new }
{
    put_written(image, 0x55, written);
    moves::move_block(image, rom, vram, wram, save, sound);
}

// FF55: the Rust's `do_cgb_dma`. A monochrome machine just stores it.
fn start_hdma(
    image: &mut [u8],
    rom: &[u8],
    vram: &mut [u8],
    wram: &[u8],
    save: &[u8],
    sound: &[u8],
    value: u8,
)
    requires { Own (fixed rom.now sound.now) image.old vram.old wram.now save.now }
    ensures { Wrote (fixed rom.now sound.now) image.old vram.old wram.now save.now 0xFF55 value image.new vram.new }
{
    if !is_colour(image) {
        image[0x155] = value;
        return;
    }
    let hdma = hdma_at(image);
    match hdma::do_cgb_dma(hdma, mode_at(image), value) {
        Start::Set(written) => put_written(image, 0x55, written),
        Start::Block(written) => put_block(image, rom, vram, wram, save, sound, written),
        Start::General => move_general(image, rom, vram, wram, save, sound, value),
    }
}

// FF46 and FF55, for a caller who has asked the image, the lengths and the log's room.
pub fn start(
    image: &mut [u8],
    rom: &[u8],
    vram: &mut [u8],
    wram: &[u8],
    save: &[u8],
    sound: &[u8],
    index: u16,
    value: u8,
)
    requires { Own (fixed rom.now sound.now) image.old vram.old wram.now save.now × ((index ≢ 0xFF46) → index ≡ 0xFF55) }
    ensures { Wrote (fixed rom.now sound.now) image.old vram.old wram.now save.now index value image.new vram.new }
{
    if index == 0xFF46 {
        image[0x146] = value;
        moves::move_oam(image, rom, vram, wram, save, sound, value);
        return;
    }
    start_hdma(image, rom, vram, wram, save, sound, value);
}
