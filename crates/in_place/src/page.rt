// The page dispatch on the image: what a byte write stores, by the same map of the registers.
#![tactic(auto, using(crate::proofs::Images::size))]

ghost use Rattle.std.specs.Prelude.{◌≡◌};
ghost use Rattle.image.specs.Layout.{image_of};
ghost use Rattle.image.specs.Load.{load_call};
ghost use Rattle.registers.specs.Page.{write_register};
ghost use Rattle.in_place.specs.Held.{Held};

use crate::{colour, palettes, screen, store, transfers};
use registers::colour::Plane;
use registers::{Register, byte_as, register_of};

// Without the copying that FF46 and FF55 start.
pub fn write(image: &mut [u8], at: u8, value: u8)
    requires { Held image.old }
    ensures { image.new ≡ image_of (write_register (load_call image.old).state at value) }
{
    match register_of(at) {
        Register::Sound => {}
        Register::Control => screen::do_lcd_control_write(image, value),
        Register::Status => screen::do_lcd_status_write(image, value),
        Register::Line => screen::do_scanline_write(image, value),
        Register::Compare => screen::do_lyc_write(image, value),
        Register::Speed => colour::write_speed(image, value),
        Register::VramBank => colour::write_vram_bank(image, value),
        Register::SourceHigh => transfers::write_source_high(image, value),
        Register::SourceLow => transfers::write_source_low(image, value),
        Register::DestinationHigh => transfers::write_destination_high(image, value),
        Register::DestinationLow => transfers::write_destination_low(image, value),
        Register::Start => transfers::write_start(image, value),
        Register::BackgroundIndex => palettes::write_index(image, Plane::Background, value),
        Register::BackgroundData => palettes::write_data(image, Plane::Background, value),
        Register::SpriteIndex => palettes::write_index(image, Plane::Sprites, value),
        Register::SpriteData => palettes::write_data(image, Plane::Sprites, value),
        Register::WramBank => colour::write_wram_bank(image, value),
        Register::Byte => store(image, at, byte_as(at, value)),
    }
}
