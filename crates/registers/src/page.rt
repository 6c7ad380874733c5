// The page dispatch: what FF00 + at reads, and what a byte write stores there, without the copying that FF46 and FF55 start.
#![tactic(auto, unfolding(crate::specs::Page::by_kind, crate::specs::Page::line_read, crate::specs::Page::shown_as, crate::specs::Page::plain_read, crate::specs::Page::read_register))]

ghost use Rattle.std.specs.Prelude.{Bool, List, ◌≡◌, ℕ, ◌≤◌, length};
ghost use Rattle.registers.specs.Page.{InPart, by_kind, line_read, shown_as, read_register, write_register};
ghost use Rattle.registers.specs.declared.page.Part.TheVariants as part;

use crate::colour::Plane;
use crate::register::{Register, byte_as, register_of};
use crate::{colour, load, screen, store, transfers};
use lcd::Lcd;
use memory::Memory;

// A register that reads otherwise on a monochrome machine.
fn by_kind(cgb: bool, colour: u8, monochrome: u8) -> u8
    ensures { result ≡ by_kind cgb colour monochrome }
{
    if cgb { colour } else { monochrome }
}

// FF44: the scan line, or 0 with the screen disabled.
pub fn read_line(lcd: Lcd) -> u8
    ensures { result ≡ line_read lcd }
{
    if lcd.disabled { 0 } else { lcd.line }
}

// The parts of the page that a read tells apart: each asks for one thing beside the byte, or for none.
#[derive(Clone, Copy)]
pub enum Part {
    // FF00..FF0F: the joypad's state.
    Low,
    // FF10..FF3F: the sound window.
    Sound,
    // FF44: the scan line.
    Line,
    // The others of FF40..FF4F.
    Screen,
    // From FF50 on: the machine's kind.
    Colour,
}

// In the order of how often a part is read: high memory lies from FF50 on.
pub fn part_of(at: u8) -> Part
    ensures { InPart result at }
{
    match at {
        0x00..=0x0F => Part::Low,
        0x50..=0xFF => Part::Colour,
        0x44 => Part::Line,
        0x10..=0x3F => Part::Sound,
        _ => Part::Screen,
    }
}

// What each part reads, where the page holds `byte`. Each is small, so that the compiler puts it in place. A sound window is a slice of any length, as C
// lends it, so that it has 48 bytes is a clause.

pub fn shown_low(byte: u8, pad: u8, at: u8) -> u8
    requires { InPart part.Low at }
    ensures { (cgb : Bool) (line : ℕ) (sound : List ℕ) → result ≡ shown_as byte cgb line pad sound at }
{
    match at {
        0x00 => joypad::read(byte, pad),
        0x03 | 0x0E => 0xFF,
        0x07 => byte | 0xF8,
        0x0F => interrupt::read(byte),
        _ => byte,
    }
}

pub fn shown_sound(sound: &[u8], at: u8) -> u8
    requires { InPart part.Sound at × (48 ≤ length sound.now) }
    ensures { (byte : ℕ) (cgb : Bool) (line pad : ℕ) → result ≡ shown_as byte cgb line pad sound.now at }
{
    sound[(at - 0x10) as usize]
}

pub fn shown_screen(byte: u8, at: u8) -> u8
    requires { InPart part.Screen at }
    ensures { (cgb : Bool) (line pad : ℕ) (sound : List ℕ) → result ≡ shown_as byte cgb line pad sound at }
{
    match at {
        0x41 => byte | 0x80,
        0x4C => 0xFF,
        0x4F => byte | 0xFE,
        _ => byte,
    }
}

pub fn shown_colour(byte: u8, cgb: bool, at: u8) -> u8
    requires { InPart part.Colour at }
    ensures { (line pad : ℕ) (sound : List ℕ) → result ≡ shown_as byte cgb line pad sound at }
{
    // An arm each: of joined ones the compiler makes three instructions more of a read of high memory (bench/budgets.txt).
    match at {
        0x68 => by_kind(cgb, byte | 0x40, 0xC0),
        0x69 => by_kind(cgb, byte | 0xF8, 0xFF),
        0x6A => by_kind(cgb, byte | 0x40, 0xC0),
        0x6B => by_kind(cgb, byte | 0xF8, 0xFF),
        0x70 => by_kind(cgb, byte | 0x40, 0xFF),
        0x76 => by_kind(cgb, 0, 0xFF),
        0x77 => by_kind(cgb, 0, 0xFF),
        _ => byte,
    }
}

// What FF00 + at reads, where the page holds `byte`: `cgb`, `line`, which FF44 gives, and `pad`, the joypad's state, are all that it takes of the bus.
pub fn shown(byte: u8, cgb: bool, line: u8, pad: u8, sound: &[u8], at: u8) -> u8
    requires { 48 ≤ length sound.now }
    ensures { result ≡ shown_as byte cgb line pad sound.now at }
{
    match part_of(at) {
        Part::Low => shown_low(byte, pad, at),
        Part::Sound => shown_sound(sound, at),
        Part::Line => line,
        Part::Screen => shown_screen(byte, at),
        Part::Colour => shown_colour(byte, cgb, at),
    }
}

pub fn read(memory: Memory, sound: &[u8], at: u8) -> u8
    requires { 48 ≤ length sound.now }
    ensures { result ≡ read_register memory sound.now at }
{
    let core = memory.core;
    shown(
        load(memory, at),
        core.banks.colour,
        read_line(core.lcd),
        core.joypad.state,
        sound,
        at,
    )
}

#[tactic(auto, unfolding(crate::specs::Colour::background_index_put, crate::specs::Colour::background_data_put, crate::specs::Colour::sprite_index_put, crate::specs::Colour::sprite_data_put))]
pub fn write(memory: Memory, at: u8, value: u8) -> Memory
    ensures { result ≡ write_register memory at value }
{
    match register_of(at) {
        Register::Sound => memory,
        Register::Control => screen::do_lcd_control_write(memory, value),
        Register::Status => screen::do_lcd_status_write(memory, value),
        Register::Line => screen::do_scanline_write(memory, value),
        Register::Compare => screen::do_lyc_write(memory, value),
        Register::Speed => colour::write_speed(memory, value),
        Register::VramBank => colour::write_vram_bank(memory, value),
        Register::SourceHigh => transfers::write_source_high(memory, value),
        Register::SourceLow => transfers::write_source_low(memory, value),
        Register::DestinationHigh => transfers::write_destination_high(memory, value),
        Register::DestinationLow => transfers::write_destination_low(memory, value),
        Register::Start => transfers::write_start(memory, value),
        Register::BackgroundIndex => colour::write_index(memory, Plane::Background, value),
        Register::BackgroundData => colour::write_data(memory, Plane::Background, value),
        Register::SpriteIndex => colour::write_index(memory, Plane::Sprites, value),
        Register::SpriteData => colour::write_data(memory, Plane::Sprites, value),
        Register::WramBank => colour::write_wram_bank(memory, value),
        Register::Byte => store(memory, at, byte_as(at, value)),
    }
}
