// The registers that only a colour machine has: monochrome just stores them. Each function has that test, as `in_colour` of specs/Colour.antt is; with the
// colour machine's change as a closure each would be as long.
#![tactic(auto, unfolding(crate::specs::Colour::speed_put, crate::specs::Colour::vram_bank_put, crate::specs::Colour::wram_bank_put))]

ghost use Rattle.std.specs.Prelude.{◌≡◌, ◌<◌, set};
ghost use Rattle.memory.specs.World.{with_banks};
ghost use Rattle.palette.specs.declared.Palette.{Palette};
ghost use Rattle.registers.specs.Colour.{in_colour, speed_put, vram_bank_put, wram_bank_put, index_at, palette_of, with_palette, index_put, data_put};

use crate::{load, store};
use memory::{Banks, Memory};
use palette::Palette;
use selects::{speed, vram_bank, wram_bank};

// FF4D.
pub fn write_speed(memory: Memory, value: u8) -> Memory
    ensures { result ≡ speed_put memory value }
{
    if memory.core.banks.colour {
        store(memory, 0x4D, speed(load(memory, 0x4D), value))
    } else {
        store(memory, 0x4D, value)
    }
}

// A bank's register, of which a colour machine keeps `kept`, and selects by it.
fn put_bank(memory: Memory, at: u8, value: u8, kept: u8, banks: Banks) -> Memory
    ensures { result ≡ in_colour memory at value (with_banks memory banks (set memory.page at kept)) }
{
    if memory.core.banks.colour {
        let mut next = store(memory, at, kept);
        next.core.banks = banks;
        next
    } else {
        store(memory, at, value)
    }
}

// FF4F.
pub fn write_vram_bank(memory: Memory, value: u8) -> Memory
    ensures { result ≡ vram_bank_put memory value }
{
    let banks = Banks {
        vram: vram_bank(value),
        ..memory.core.banks
    };
    put_bank(memory, 0x4F, value, value % 2, banks)
}

// FF70.
pub fn write_wram_bank(memory: Memory, value: u8) -> Memory
    ensures { result ≡ wram_bank_put memory value }
{
    let banks = Banks {
        wram: wram_bank(value),
        ..memory.core.banks
    };
    put_bank(memory, 0x70, value, value % 8, banks)
}

// Whose palette.
#[derive(Clone, Copy)]
pub enum Plane {
    // FF68, FF69.
    Background,
    // FF6A, FF6B.
    Sprites,
}

impl Plane {
    // The index register; the data register is the next one.
    pub fn at(self) -> u8
        ensures { (result ≡ index_at self) × (result < 0x80) }
    {
        match self {
            Plane::Background => 0x68,
            Plane::Sprites => 0x6A,
        }
    }
}

fn palette_of(memory: Memory, plane: Plane) -> Palette
    ensures { result ≡ palette_of plane memory }
{
    Palette {
        index: load(memory, plane.at()),
        data: load(memory, plane.at() + 1),
        colors: match plane {
            Plane::Background => memory.background,
            Plane::Sprites => memory.sprites,
        },
    }
}

fn with_palette(mut memory: Memory, plane: Plane, palette: Palette) -> Memory
    ensures { result ≡ with_palette plane memory palette }
{
    let at = plane.at() as usize;
    memory.page[at] = palette.index;
    memory.page[at + 1] = palette.data;
    let colors = palette.colors;
    match plane {
        Plane::Background => memory.background = colors,
        Plane::Sprites => memory.sprites = colors,
    }
    memory
}

// A palette's register: monochrome just stores it, and asks for no change.
fn put_palette<F: FnOnce(Palette) -> Palette>(
    memory: Memory,
    plane: Plane,
    at: u8,
    value: u8,
    change: F,
) -> Memory
    requires { F.IsAlwaysCallable change }
    ensures { (next : Palette) → ((p : Palette) → F.post change (palette_of plane memory) p → p ≡ next)
        → result ≡ in_colour memory at value (with_palette plane memory next) }
{
    if memory.core.banks.colour {
        with_palette(memory, plane, change(palette_of(memory, plane)))
    } else {
        store(memory, at, value)
    }
}

// FF68, FF6A.
pub fn write_index(memory: Memory, plane: Plane, value: u8) -> Memory
    ensures { result ≡ index_put plane memory value }
{
    let at = plane.at();
    put_palette(
        memory,
        plane,
        at,
        value,
        |palette| palette::write_index(palette, value),
    )
}

// FF69, FF6B.
pub fn write_data(memory: Memory, plane: Plane, value: u8) -> Memory
    ensures { result ≡ data_put plane memory value }
{
    let at = plane.at() + 1;
    put_palette(
        memory,
        plane,
        at,
        value,
        |palette| palette::write_data(palette, value),
    )
}
