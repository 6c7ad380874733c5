// FF51..FF55 on the image: the registers of the transfers. The bytes are copied elsewhere.
#![tactic(auto, using(crate::proofs::Images::size))]

ghost use Rattle.std.specs.Prelude.{true, false, ◌≡◌};
ghost use Rattle.image.specs.Layout.{image_of};
ghost use Rattle.image.specs.Load.{load_call, storable};
ghost use Rattle.hdma.specs.declared.Written.{Written};
ghost use Rattle.registers.specs.State.{stored};
ghost use Rattle.registers.specs.Transfers.{transfer_put, source_high_put, source_low_put, destination_high_put, destination_low_put, start_put};
ghost use Rattle.in_place.specs.Held.{Held};

use crate::colour::is_colour;
use crate::store;
use hdma::{Hdma, Start, Written};

pub fn hdma_at(image: &[u8]) -> Hdma
    requires { Held image.now }
    ensures { result ≡ (load_call image.now).state.core.hdma }
{
    image::hdma_at(image)
}

// The hidden addresses, and a byte of the page.
pub fn put_written(image: &mut [u8], at: u8, written: Written)
    requires { Held image.old × (storable (transfer_put (load_call image.old).state at written) ≡ true) }
    ensures { image.new ≡ image_of (transfer_put (load_call image.old).state at written) }
{
    store(image, at, written.byte);
    image::put_hdma(image, written.hdma);
}

// A write of an address's byte: monochrome just stores it.
fn write_address<F: FnOnce(Hdma, u8) -> Written>(image: &mut [u8], at: u8, value: u8, write: F)
    requires held { Held image.old }
    requires callable { F.IsAlwaysCallable write }
    requires kept { (w : Written) → F.post write (load_call image.old).state.core.hdma value w → (load_call image.old).state.core.banks.colour ≡ true → storable (transfer_put (load_call image.old).state at w) ≡ true }
    ensures coloured { (load_call image.old).state.core.banks.colour ≡ true → (w : Written) × F.post write (load_call image.old).state.core.hdma value w × image.new ≡ image_of (transfer_put (load_call image.old).state at w) }
    ensures plain { (load_call image.old).state.core.banks.colour ≡ false → image.new ≡ image_of (stored (load_call image.old).state at value) }
{
    if is_colour(image) {
        let written = write(hdma_at(image), value);
        put_written(image, at, written);
    } else {
        store(image, at, value);
    }
}

// FF51.
pub fn write_source_high(image: &mut [u8], value: u8)
    requires { Held image.old }
    ensures { image.new ≡ image_of (source_high_put (load_call image.old).state value) }
{
    write_address(image, 0x51, value, hdma::write_source_high);
}

// FF52.
pub fn write_source_low(image: &mut [u8], value: u8)
    requires { Held image.old }
    ensures { image.new ≡ image_of (source_low_put (load_call image.old).state value) }
{
    write_address(image, 0x52, value, hdma::write_source_low);
}

// FF53.
pub fn write_destination_high(image: &mut [u8], value: u8)
    requires { Held image.old }
    ensures { image.new ≡ image_of (destination_high_put (load_call image.old).state value) }
{
    write_address(image, 0x53, value, hdma::write_destination_high);
}

// FF54.
pub fn write_destination_low(image: &mut [u8], value: u8)
    requires { Held image.old }
    ensures { image.new ≡ image_of (destination_low_put (load_call image.old).state value) }
{
    write_address(image, 0x54, value, hdma::write_destination_low);
}

pub fn mode_at(image: &[u8]) -> u8
    requires { Held image.now }
    ensures { result ≡ (load_call image.now).state.core.lcd.mode }
{
    image::lcd_at(image).mode
}

// FF55, before any byte is copied; a general transfer sets the registers at its end.
pub fn write_start(image: &mut [u8], value: u8)
    requires { Held image.old }
    ensures { image.new ≡ image_of (start_put (load_call image.old).state value) }
{
    if is_colour(image) {
        match hdma::do_cgb_dma(hdma_at(image), mode_at(image), value) {
            Start::Set(written) | Start::Block(written) => put_written(image, 0x55, written),
            Start::General => {}
        }
    } else {
        store(image, 0x55, value);
    }
}
