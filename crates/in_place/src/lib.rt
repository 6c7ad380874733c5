// The crate registers' functions on the image itself: each reads the bytes and the fields that it needs, calls the crate that knows the rule, and puts what
// changed. What is left is the image of what the function there gives. Each asks for an image that is taken (specs/Held.antt): by a clause,
// as a struct around the lent bytes would be made and given up by every call, and all that is said of `image.new` would be said of its field.
// FF00 + at is the byte 0x100 + at of an image.
#![tactic(auto, using(crate::proofs::Images::size))]

ghost use Rattle.std.specs.Prelude.{◌≡◌};
ghost use Rattle.image.specs.Layout.{image_of};
ghost use Rattle.image.specs.Load.{load_call};
ghost use Rattle.registers.specs.State.{loaded, stored};
ghost use Rattle.in_place.specs.Held.{Held};

pub mod colour;
pub mod interrupts;
pub mod page;
pub mod palettes;
pub mod screen;
pub mod transfers;

// FF00 + at, raw.
pub fn load(image: &[u8], at: u8) -> u8
    requires { Held image.now }
    ensures { result ≡ loaded (load_call image.now).state at }
{
    image[0x100 + at as usize]
}

pub fn store(image: &mut [u8], at: u8, value: u8)
    requires { Held image.old }
    ensures { image.new ≡ image_of (stored (load_call image.old).state at value) }
{
    image[0x100 + at as usize] = value;
}
