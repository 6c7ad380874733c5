// The registers that only a colour machine has, on the image: monochrome just stores them. The test is in each function, as in registers/src/colour.rt.
#![tactic(auto, using(crate::proofs::Images::size))]

ghost use Rattle.std.specs.Prelude.{true, ◌≡◌, set};
ghost use Rattle.image.specs.Layout.{image_of};
ghost use Rattle.image.specs.Load.{load_call, storable};
ghost use Rattle.memory.specs.World.{with_banks};
ghost use Rattle.registers.specs.Colour.{in_colour, speed_put, vram_bank_put, wram_bank_put};
ghost use Rattle.in_place.specs.Held.{Held};

use crate::store;
use memory::Banks;
use selects::{speed, vram_bank, wram_bank};

pub fn is_colour(image: &[u8]) -> bool
    requires { Held image.now }
    ensures { result ≡ (load_call image.now).state.core.banks.colour }
{
    banks_at(image).colour
}

// A group of the state, as `controller_at` and `hdma_at` are: each has a type of its own, and is one line.
pub fn banks_at(image: &[u8]) -> Banks
    requires { Held image.now }
    ensures { result ≡ (load_call image.now).state.core.banks }
{
    image::banks_at(image)
}

// A bank's register, of which a colour machine keeps `kept`, and selects by it.
fn put_bank(image: &mut [u8], at: u8, value: u8, kept: u8, banks: Banks)
    requires { Held image.old × ((banks.colour ≡ (load_call image.old).state.core.banks.colour) × (banks.colour ≡ true → storable (with_banks (load_call image.old).state banks (set (load_call image.old).state.page at kept)) ≡ true)) }
    ensures { image.new ≡ image_of (in_colour (load_call image.old).state at value (with_banks (load_call image.old).state banks (set (load_call image.old).state.page at kept))) }
{
    if banks.colour {
        store(image, at, kept);
        image::put_banks(image, banks);
    } else {
        store(image, at, value);
    }
}

// FF4D.
pub fn write_speed(image: &mut [u8], value: u8)
    requires { Held image.old }
    ensures { image.new ≡ image_of (speed_put (load_call image.old).state value) }
{
    if is_colour(image) {
        let next = speed(image[0x14D], value);
        store(image, 0x4D, next);
    } else {
        store(image, 0x4D, value);
    }
}

// FF4F.
pub fn write_vram_bank(image: &mut [u8], value: u8)
    requires { Held image.old }
    ensures { image.new ≡ image_of (vram_bank_put (load_call image.old).state value) }
{
    let banks = Banks {
        vram: vram_bank(value),
        ..banks_at(image)
    };
    put_bank(image, 0x4F, value, value % 2, banks);
}

// FF70.
pub fn write_wram_bank(image: &mut [u8], value: u8)
    requires { Held image.old }
    ensures { image.new ≡ image_of (wram_bank_put (load_call image.old).state value) }
{
    let banks = Banks {
        wram: wram_bank(value),
        ..banks_at(image)
    };
    put_bank(image, 0x70, value, value % 8, banks);
}
