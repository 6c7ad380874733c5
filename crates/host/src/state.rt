// Entries on the state alone.
ghost use Rattle.dispatch.specs.declared.StateCall.TheVariants as on;
ghost use Rattle.lcd.specs.Lcd.{numbers_of};
ghost use Rattle.entry.specs.EntryContracts.{Changes, Asks, GivesCycles};

use crate::answers::{hand, hand_cycles, hand_flag, hand_waiting};
use lcd::Lcd;
use numbers::number_given;
use quick_state::{clock, fields, input, interrupts, page};

// Raw: the page, FF00..FFFF.
pub fn pouch_load(image: &[u8], index: u16, value: &mut u16) -> u8
    ensures { Asks image.now (on.Load index) result value.new }
{
    hand(page::load(image, index).map(u16::from), 0, value)
}

pub fn pouch_store(image: &mut [u8], index: u16, byte: u8) -> u8
    ensures { Changes image.old (on.Store index byte) result image.new }
{
    number_given(&page::store(image, index, byte))
}

pub fn pouch_set_joypad_state(image: &mut [u8], state: u8) -> u8
    ensures { Changes image.old (on.SetJoypadState state) result image.new }
{
    number_given(&input::set_joypad_state(image, state))
}

pub fn pouch_are_action_keys_enabled(image: &[u8], value: &mut u16) -> u8
    ensures { Asks image.now on.AreActionKeysEnabled result value.new }
{
    hand_flag(input::are_action_keys_enabled(image), value)
}

pub fn pouch_are_direction_keys_enabled(image: &[u8], value: &mut u16) -> u8
    ensures { Asks image.now on.AreDirectionKeysEnabled result value.new }
{
    hand_flag(input::are_direction_keys_enabled(image), value)
}

pub fn pouch_do_lcd_control_write(image: &mut [u8], byte: u8) -> u8
    ensures { Changes image.old (on.DoLcdControlWrite byte) result image.new }
{
    number_given(&quick_screen::do_lcd_control_write(image, byte))
}

pub fn pouch_do_lcd_status_write(image: &mut [u8], byte: u8) -> u8
    ensures { Changes image.old (on.DoLcdStatusWrite byte) result image.new }
{
    number_given(&quick_screen::do_lcd_status_write(image, byte))
}

pub fn pouch_do_scanline_write(image: &mut [u8], byte: u8) -> u8
    ensures { Changes image.old (on.DoScanlineWrite byte) result image.new }
{
    number_given(&quick_screen::do_scanline_write(image, byte))
}

pub fn pouch_do_lyc_write(image: &mut [u8], byte: u8) -> u8
    ensures { Changes image.old (on.DoLycWrite byte) result image.new }
{
    number_given(&quick_screen::do_lyc_write(image, byte))
}

pub fn pouch_compare_ly_to_lyc(image: &mut [u8]) -> u8
    ensures { Changes image.old on.CompareLyToLyc result image.new }
{
    number_given(&quick_screen::compare_ly_to_lyc(image))
}

pub fn pouch_enable_screen(image: &mut [u8]) -> u8
    ensures { Changes image.old on.EnableScreen result image.new }
{
    number_given(&quick_screen::enable_screen(image))
}

pub fn pouch_disable_screen(image: &mut [u8]) -> u8
    ensures { Changes image.old on.DisableScreen result image.new }
{
    number_given(&quick_screen::disable_screen(image))
}

pub fn pouch_reset_window_line(image: &mut [u8]) -> u8
    ensures { Changes image.old on.ResetWindowLine result image.new }
{
    number_given(&quick_screen::reset_window_line(image))
}

// The interrupt that is served first, by its bit; 5 for none.
pub fn pouch_get_interrupts(image: &[u8], value: &mut u16) -> u8
    ensures { Asks image.now on.GetInterrupts result value.new }
{
    hand_waiting(interrupts::get_interrupts(image), value)
}

pub fn pouch_request_interrupt(image: &mut [u8], interrupt: u8) -> u8
    ensures { Changes image.old (on.RequestInterrupt interrupt) result image.new }
{
    number_given(&interrupts::request_interrupt(image, interrupt))
}

pub fn pouch_remove_interrupt(image: &mut [u8], interrupt: u8) -> u8
    ensures { Changes image.old (on.RemoveInterrupt interrupt) result image.new }
{
    number_given(&interrupts::remove_interrupt(image, interrupt))
}

pub fn pouch_is_hdma_enabled(image: &[u8], value: &mut u16) -> u8
    ensures { Asks image.now on.IsHdmaEnabled result value.new }
{
    hand_flag(fields::is_hdma_enabled(image), value)
}

// The Rust's Timer::update.
pub fn pouch_update_timer(image: &mut [u8], cycles: u32) -> u8
    ensures { Changes image.old (on.UpdateTimer cycles) result image.new }
{
    number_given(&clock::update_timer(image, cycles))
}

// The cycles left until TIMA overflows.
pub fn pouch_cycles_to_overflow(image: &[u8], value: &mut u32) -> u8
    ensures { GivesCycles image.now result value.new }
{
    hand_cycles(clock::cycles_to_overflow(image), value)
}

pub fn pouch_press(image: &mut [u8], button: u8) -> u8
    ensures { Changes image.old (on.Press button) result image.new }
{
    number_given(&input::press(image, button))
}

pub fn pouch_release(image: &mut [u8], button: u8) -> u8
    ensures { Changes image.old (on.Release button) result image.new }
{
    number_given(&input::release(image, button))
}

// The Rust's Controller::update.
pub fn pouch_update_joypad(image: &mut [u8]) -> u8
    ensures { Changes image.old on.UpdateJoypad result image.new }
{
    number_given(&input::update_joypad(image))
}

// The host has copied the log's used bytes off.
pub fn pouch_clear_log(image: &mut [u8]) -> u8
    ensures { Changes image.old on.ClearLog result image.new }
{
    number_given(&fields::clear_log(image))
}

// The host sets the eight numbers of the screen, to any values.
pub fn pouch_host(
    image: &mut [u8],
    disabled: bool,
    line: u8,
    signal: u8,
    mode: u8,
    delay: i32,
    counter: i32,
    aux: i32,
    window: i32,
) -> u8
    ensures { Changes image.old (on.Host (numbers_of disabled line signal mode delay counter aux window)) result
        image.new }
{
    let lcd = Lcd {
        disabled,
        line,
        signal,
        mode,
        delay,
        counter,
        aux,
        window,
    };
    number_given(&quick_screen::host(image, lcd))
}
