// The state image: a state as bytes, and back. specs/Layout.antt has the bytes, specs/Load.antt the two calls, specs/Laws.antt that they
// go round. Each part has its own function, so that a caller who needs one part takes that alone.
#![tactic(auto)]

ghost use Rattle.std.specs.Prelude.{◌≡◌, true, ◌+◌, ◌≤◌, length, take};
ghost use Rattle.numbers.specs.Numbers.{done};
ghost use Rattle.numbers.specs.Refusal.{number_given};
ghost use Rattle.image.specs.Layout.{image_len, image_of};
ghost use Rattle.image.specs.Load.{storable, Stores, state_of, load_call, load_given, open_call, open_given};
ghost use Rattle.image.specs.Known.{Known};
ghost use Rattle.image.specs.Laws.{Typed, StateBack, ImageBack, ImageTyped, OneStore, OneStored};
ghost use Rattle.image.specs.Patches.{arrays_of, Mapped};

mod colors;
mod enough;
mod fields;
mod layout;

pub use colors::{channels_of, color_at, put_color};
pub use fields::{
    banks_at, cartridge_at, clock_at, hdma_at, joypad_at, lcd_at, mapper_at, mapper_surely_fits,
    put_banks, put_clock, put_hdma, put_joypad, put_lcd, put_mapping, put_registers, put_signed,
    put_used, registers_at, rest_surely_fits, used_at,
};
pub use layout::{
    AUX_AT, COUNTER_AT, DELAY_AT, DISABLED_AT, LENGTH, LINE_AT, MODE_AT, SIGNAL_AT, WINDOW_AT,
};
use memory::{Core, Memory};
use numbers::Refusal;

// What the types of a state say.
fn typed(memory: Memory)
    ensures { Typed memory }
{}

// OAM, page and colours, into the first bytes of an image.
fn put_arrays(memory: Memory, image: &mut [u8])
    requires { (length image.old ≡ image_len) × (storable memory ≡ true) }
    ensures { take 632 image.new ≡ arrays_of memory }
{
    typed(memory);
    let oam = memory.oam;
    let page = memory.page;
    let b = memory.background;
    let background = colors::bytes_of(b);
    let s = memory.sprites;
    let sprites = colors::bytes_of(s);
    packing::put(image, 0, &oam);
    packing::put(image, 256, &page);
    packing::put(image, 512, &background);
    packing::put(image, 572, &sprites);
}

// The image of a state in range, into the bytes of an image.
pub fn store(memory: Memory, image: &mut [u8])
    requires { (length image.old ≡ image_len) × (storable memory ≡ true) }
    ensures { image.new ≡ image_of memory }
{
    typed(memory);
    put_arrays(memory, image);
    let core = memory.core;
    fields::put_core(image, core);
}

// The state's image; refused by 4 for another length, by 3 for a state out of range, and then nothing is changed.
pub fn encode(memory: Memory, image: &mut [u8]) -> Result<(), Refusal>
    ensures { Stores memory image.old (number_given result) image.new }
{
    if image.len() != LENGTH {
        return Err(Refusal::WrongLength);
    }
    if !memory::in_range(memory, savelog::LOG_LIMIT) {
        return Err(Refusal::OutOfRange);
    }
    store(memory, image);
    Ok(())
}

// Whether a load takes an image: it refuses by 4 another length, by 3 an image that no state in range has. The colours are not looked at: a channel of
// five bits is in range.
pub fn taken(image: &[u8]) -> Result<(), Refusal>
    ensures { number_given result ≡ (load_call image.now).number }
{
    if image.len() != LENGTH {
        return Err(Refusal::WrongLength);
    }
    if !fields::head_fits(image) {
        return Err(Refusal::OutOfRange);
    }
    if !fields::tail_fits(image) {
        return Err(Refusal::OutOfRange);
    }
    Ok(())
}

// Called from one place, so that the slice is stored there and not by every call.
fn taken_apart(image: &[u8]) -> Result<(), Refusal>
    ensures { number_given result ≡ (load_call image.now).number }
{
    taken(image)
}

// The same in two, so that each is put in place where it is called: what the first refuses, a load refuses by the same number; what it takes, is still to
// be asked of the rest.
pub fn mapper_taken(image: &[u8]) -> Result<(), Refusal>
    ensures { (number_given result ≡ done → Mapped image.now) × ((number_given result ≡ done → ⊥) → number_given result ≡ (load_call image.now).number) }
{
    if fields::mapper_surely(image) {
        return Ok(());
    }
    taken_apart(image)
}

pub fn rest_taken(image: &[u8]) -> Result<(), Refusal>
    requires { Mapped image.now }
    ensures { number_given result ≡ (load_call image.now).number }
{
    if fields::rest_fits(image) {
        return Ok(());
    }
    Err(Refusal::OutOfRange)
}

// What a load gives, without the arrays.
pub fn open(image: &[u8]) -> Result<Core, Refusal>
    ensures { open_given result ≡ open_call image.now }
{
    taken(image)?;
    Ok(fields::core_at(image))
}

// The state that an image's bytes hold.
fn state_of(image: &[u8], core: Core) -> Memory
    requires { (length image.now ≡ image_len) × (core ≡ (state_of image.now).core) }
    ensures { result ≡ state_of image.now }
{
    let oam = packing::part(image, 0);
    let page = packing::part(image, 256);
    let background = colors::colors_at(&image[512..572]);
    let sprites = colors::colors_at(&image[572..632]);
    Memory {
        oam,
        page,
        background,
        sprites,
        core,
    }
}

// The state of an image; refused as `open` is.
pub fn decode(image: &[u8]) -> Result<Memory, Refusal>
    ensures { load_given result ≡ load_call image.now }
{
    let core = open(image)?;
    Ok(state_of(image, core))
}

// The laws of specs/Laws.antt and the images of specs/Known.antt, as a contract: its proof hands them over.
pub fn laws_hold()
    ensures { StateBack × ImageBack × ImageTyped × Known × OneStore × OneStored }
{}
