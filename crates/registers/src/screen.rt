// The LCD functions on the state: the crate lcd's, on the screen and its registers.
#![tactic(auto, unfolding(crate::specs::State::on_screen))]

ghost use Rattle.std.specs.Prelude.{◌≡◌};
ghost use Rattle.lcd.specs.Lcd.{screen_enabled, screen_disabled, window_line_reset, ly_compared, scanline_written, lyc_written, control_written, status_written};
ghost use Rattle.registers.specs.State.{screen_of, with_screen, on_screen, hosted};

use crate::load;
use lcd::{Lcd, Screen};
use memory::Memory;

fn screen_of(memory: Memory) -> Screen
    ensures { result ≡ screen_of memory }
{
    Screen {
        lcd: memory.core.lcd,
        control: load(memory, 0x40),
        status: load(memory, 0x41),
        compare: load(memory, 0x45),
        wy: load(memory, 0x4A),
        flags: load(memory, 0x0F),
    }
}

fn with_screen(mut memory: Memory, screen: Screen) -> Memory
    ensures { result ≡ with_screen memory screen }
{
    memory.page[0x40] = screen.control;
    memory.page[0x41] = screen.status;
    memory.page[0x45] = screen.compare;
    memory.page[0x0F] = screen.flags;
    memory.core.lcd = screen.lcd;
    memory
}

// An LCD function on the state: the screen is taken out, changed and put back.
fn on_screen<F: FnOnce(Screen) -> Screen>(memory: Memory, change: F) -> Memory
    requires { F.IsAlwaysCallable change }
    ensures { (next : Screen) × F.post change (screen_of memory) next × result ≡ with_screen memory next }
{
    with_screen(memory, change(screen_of(memory)))
}

pub fn enable_screen(memory: Memory) -> Memory
    ensures { result ≡ on_screen screen_enabled memory }
{
    on_screen(memory, lcd::enable_screen)
}

pub fn disable_screen(memory: Memory) -> Memory
    ensures { result ≡ on_screen screen_disabled memory }
{
    on_screen(memory, lcd::disable_screen)
}

pub fn reset_window_line(memory: Memory) -> Memory
    ensures { result ≡ on_screen window_line_reset memory }
{
    on_screen(memory, lcd::reset_window_line)
}

pub fn compare_ly_to_lyc(memory: Memory) -> Memory
    ensures { result ≡ on_screen ly_compared memory }
{
    on_screen(memory, lcd::compare_ly_to_lyc)
}

pub fn do_scanline_write(memory: Memory, value: u8) -> Memory
    ensures { result ≡ on_screen (λ s. scanline_written s value) memory }
{
    on_screen(memory, |screen| lcd::do_scanline_write(screen, value))
}

pub fn do_lyc_write(memory: Memory, value: u8) -> Memory
    ensures { result ≡ on_screen (λ s. lyc_written s value) memory }
{
    on_screen(memory, |screen| lcd::do_lyc_write(screen, value))
}

pub fn do_lcd_control_write(memory: Memory, value: u8) -> Memory
    ensures { result ≡ on_screen (λ s. control_written s value) memory }
{
    on_screen(memory, |screen| lcd::do_lcd_control_write(screen, value))
}

pub fn do_lcd_status_write(memory: Memory, value: u8) -> Memory
    ensures { result ≡ on_screen (λ s. status_written s value) memory }
{
    on_screen(memory, |screen| lcd::do_lcd_status_write(screen, value))
}

// The host's call: the eight numbers of the screen.
pub fn host(mut memory: Memory, lcd: Lcd) -> Memory
    ensures { result ≡ hosted memory lcd }
{
    memory.core.lcd = lcd;
    memory
}
