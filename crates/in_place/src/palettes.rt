// FF68..FF6B on the image: monochrome just stores them. The background's and the sprites' work alike, each on its own registers and colours.
#![tactic(auto, using(crate::proofs::Images::size))]

ghost use Rattle.std.specs.Prelude.{◌≡◌, ℕ, ◌+◌, ◌<◌, ◌≤◌, length};
ghost use Rattle.image.specs.Layout.{image_len, image_of};
ghost use Rattle.image.specs.Load.{load_call};
ghost use Rattle.palette.specs.declared.Palette.{Palette};
ghost use Rattle.registers.specs.Colour as colour;
ghost use Rattle.in_place.specs.Held.{Held};
ghost use Rattle.in_place.specs.Palettes.{first_of, index_put, data_put};

use crate::colour::is_colour;
use crate::store;
use palette::{byte_of, color_of, next_index, set_color_palette};
use registers::colour::Plane;

// The byte `at` is the index register, the next the data register, and the colours are those from `first` on.
fn put_index(image: &mut [u8], at: usize, first: usize, value: u8)
    requires { (length image.old ≡ image_len) × ((at + 1 < image_len) × (first ≤ 32)) }
    ensures { image.new ≡ index_put image.old at first value }
{
    let c = image::color_at(image, first + color_of(value));
    image[at] = value;
    image[at + 1] = byte_of(c, value);
}

// Apart, so that what calls it is put in place.
#[inline(never)]
fn put_data(image: &mut [u8], at: usize, first: usize, value: u8)
    requires { (length image.old ≡ image_len) × ((at + 1 < image_len) × (first ≤ 32)) }
    ensures { image.new ≡ data_put image.old at first value }
{
    let index = image[at];
    let k = first + color_of(index);
    let c = image::color_at(image, k);
    let next = image::color_at(image, first + color_of(next_index(index)));
    let w = set_color_palette(index, c, next, value);
    image[at] = w.index;
    image[at + 1] = w.data;
    image::put_color(image, k, w.color);
}

// A plane's first colour of the 64.
fn first_of(plane: Plane) -> usize
    ensures { result ≡ first_of plane }
{
    match plane {
        Plane::Background => 0,
        Plane::Sprites => 32,
    }
}

// A palette's register: monochrome just stores it. The writer gets where the plane's index register and its first colour lie.
fn put_palette<F: FnOnce(&mut [u8], usize, usize)>(
    image: &mut [u8],
    plane: Plane,
    at: u8,
    value: u8,
    put: F,
)
    requires held { Held image.old }
    requires fits { (a : _) (k n : ℕ) → length a.now ≡ image_len → k + 1 < image_len → n ≤ 32 → F.pre put a k n }
    ensures { (next : Palette) → ((a : _) (k n : ℕ) (b : _) → a.now ≡ image.old → k ≡ 256 + colour.index_at plane → n ≡ first_of plane
        → F.post put a k n tt b → b.now ≡ image_of (colour.with_palette plane (load_call image.old).state next))
        → image.new ≡ image_of (colour.in_colour (load_call image.old).state at value (colour.with_palette plane (load_call image.old).state next)) }
{
    if is_colour(image) {
        put(image, 0x100 + plane.at() as usize, first_of(plane));
    } else {
        store(image, at, value);
    }
}

// FF68, FF6A.
pub fn write_index(image: &mut [u8], plane: Plane, value: u8)
    requires { Held image.old }
    ensures { image.new ≡ image_of (colour.index_put plane (load_call image.old).state value) }
{
    put_palette(
        image,
        plane,
        plane.at(),
        value,
        |image, at, first| put_index(image, at, first, value),
    );
}

// FF69, FF6B.
pub fn write_data(image: &mut [u8], plane: Plane, value: u8)
    requires { Held image.old }
    ensures { image.new ≡ image_of (colour.data_put plane (load_call image.old).state value) }
{
    put_palette(
        image,
        plane,
        plane.at() + 1,
        value,
        |image, at, first| put_data(image, at, first, value),
    );
}
