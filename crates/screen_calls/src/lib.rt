// Calls on the screen's part of the state, the Rust's `do_lcd_control_write` and its like, and the call by which the host sets the screen's numbers.
#![tactic(auto)]

ghost use Rattle.std.specs.Prelude.{◌≡◌};
ghost use Rattle.refusals.specs.Answers.{done_of};
ghost use Rattle.screen_calls.specs.Screen.{control_call, status_call, scanline_call, lyc_call, compare_call, enable_call, disable_call, window_call, host_call};

use lcd::Lcd;
use memory::Memory;
use numbers::Refusal;

pub fn do_lcd_control_write(memory: Memory, value: u8) -> Result<Memory, Refusal>
    ensures { done_of memory result ≡ control_call memory value }
{
    refusals::on_state(
        memory,
        |memory| registers::screen::do_lcd_control_write(memory, value),
    )
}

pub fn do_lcd_status_write(memory: Memory, value: u8) -> Result<Memory, Refusal>
    ensures { done_of memory result ≡ status_call memory value }
{
    refusals::on_state(
        memory,
        |memory| registers::screen::do_lcd_status_write(memory, value),
    )
}

pub fn do_scanline_write(memory: Memory, value: u8) -> Result<Memory, Refusal>
    ensures { done_of memory result ≡ scanline_call memory value }
{
    refusals::on_state(
        memory,
        |memory| registers::screen::do_scanline_write(memory, value),
    )
}

pub fn do_lyc_write(memory: Memory, value: u8) -> Result<Memory, Refusal>
    ensures { done_of memory result ≡ lyc_call memory value }
{
    refusals::on_state(
        memory,
        |memory| registers::screen::do_lyc_write(memory, value),
    )
}

pub fn compare_ly_to_lyc(memory: Memory) -> Result<Memory, Refusal>
    ensures { done_of memory result ≡ compare_call memory }
{
    refusals::on_state(memory, registers::screen::compare_ly_to_lyc)
}

pub fn enable_screen(memory: Memory) -> Result<Memory, Refusal>
    ensures { done_of memory result ≡ enable_call memory }
{
    refusals::on_state(memory, registers::screen::enable_screen)
}

pub fn disable_screen(memory: Memory) -> Result<Memory, Refusal>
    ensures { done_of memory result ≡ disable_call memory }
{
    refusals::on_state(memory, registers::screen::disable_screen)
}

pub fn reset_window_line(memory: Memory) -> Result<Memory, Refusal>
    ensures { done_of memory result ≡ window_call memory }
{
    refusals::on_state(memory, registers::screen::reset_window_line)
}

// The host sets the eight numbers of the screen, to any values.
pub fn host(memory: Memory, lcd: Lcd) -> Result<Memory, Refusal>
    ensures { done_of memory result ≡ host_call memory lcd }
{
    refusals::on_state(memory, |memory| registers::screen::host(memory, lcd))
}
