// The exports on the state alone.
ghost use Rattle.dispatch.specs.declared.StateCall.TheVariants as on;
ghost use Rattle.lcd.specs.Lcd.{numbers_of};
ghost use Rattle.entry.specs.EntryContracts.{Changes, Asks, GivesCycles};

#[unsafe(no_mangle)]
pub extern "C" fn pouch_load(image: &[u8], index: u16, value: &mut u16) -> u8
    ensures { Asks image.now (on.Load index) result value.new }
{
    host::state::pouch_load(image, index, value)
}

#[unsafe(no_mangle)]
pub extern "C" fn pouch_store(image: &mut [u8], index: u16, byte: u8) -> u8
    ensures { Changes image.old (on.Store index byte) result image.new }
{
    host::state::pouch_store(image, index, byte)
}

#[unsafe(no_mangle)]
pub extern "C" fn pouch_set_joypad_state(image: &mut [u8], state: u8) -> u8
    ensures { Changes image.old (on.SetJoypadState state) result image.new }
{
    host::state::pouch_set_joypad_state(image, state)
}

#[unsafe(no_mangle)]
pub extern "C" fn pouch_are_action_keys_enabled(image: &[u8], value: &mut u16) -> u8
    ensures { Asks image.now on.AreActionKeysEnabled result value.new }
{
    host::state::pouch_are_action_keys_enabled(image, value)
}

#[unsafe(no_mangle)]
pub extern "C" fn pouch_are_direction_keys_enabled(image: &[u8], value: &mut u16) -> u8
    ensures { Asks image.now on.AreDirectionKeysEnabled result value.new }
{
    host::state::pouch_are_direction_keys_enabled(image, value)
}

#[unsafe(no_mangle)]
pub extern "C" fn pouch_do_lcd_control_write(image: &mut [u8], byte: u8) -> u8
    ensures { Changes image.old (on.DoLcdControlWrite byte) result image.new }
{
    host::state::pouch_do_lcd_control_write(image, byte)
}

#[unsafe(no_mangle)]
pub extern "C" fn pouch_do_lcd_status_write(image: &mut [u8], byte: u8) -> u8
    ensures { Changes image.old (on.DoLcdStatusWrite byte) result image.new }
{
    host::state::pouch_do_lcd_status_write(image, byte)
}

#[unsafe(no_mangle)]
pub extern "C" fn pouch_do_scanline_write(image: &mut [u8], byte: u8) -> u8
    ensures { Changes image.old (on.DoScanlineWrite byte) result image.new }
{
    host::state::pouch_do_scanline_write(image, byte)
}

#[unsafe(no_mangle)]
pub extern "C" fn pouch_do_lyc_write(image: &mut [u8], byte: u8) -> u8
    ensures { Changes image.old (on.DoLycWrite byte) result image.new }
{
    host::state::pouch_do_lyc_write(image, byte)
}

#[unsafe(no_mangle)]
pub extern "C" fn pouch_compare_ly_to_lyc(image: &mut [u8]) -> u8
    ensures { Changes image.old on.CompareLyToLyc result image.new }
{
    host::state::pouch_compare_ly_to_lyc(image)
}

#[unsafe(no_mangle)]
pub extern "C" fn pouch_enable_screen(image: &mut [u8]) -> u8
    ensures { Changes image.old on.EnableScreen result image.new }
{
    host::state::pouch_enable_screen(image)
}

#[unsafe(no_mangle)]
pub extern "C" fn pouch_disable_screen(image: &mut [u8]) -> u8
    ensures { Changes image.old on.DisableScreen result image.new }
{
    host::state::pouch_disable_screen(image)
}

#[unsafe(no_mangle)]
pub extern "C" fn pouch_reset_window_line(image: &mut [u8]) -> u8
    ensures { Changes image.old on.ResetWindowLine result image.new }
{
    host::state::pouch_reset_window_line(image)
}

#[unsafe(no_mangle)]
pub extern "C" fn pouch_get_interrupts(image: &[u8], value: &mut u16) -> u8
    ensures { Asks image.now on.GetInterrupts result value.new }
{
    host::state::pouch_get_interrupts(image, value)
}

#[unsafe(no_mangle)]
pub extern "C" fn pouch_request_interrupt(image: &mut [u8], interrupt: u8) -> u8
    ensures { Changes image.old (on.RequestInterrupt interrupt) result image.new }
{
    host::state::pouch_request_interrupt(image, interrupt)
}

#[unsafe(no_mangle)]
pub extern "C" fn pouch_remove_interrupt(image: &mut [u8], interrupt: u8) -> u8
    ensures { Changes image.old (on.RemoveInterrupt interrupt) result image.new }
{
    host::state::pouch_remove_interrupt(image, interrupt)
}

#[unsafe(no_mangle)]
pub extern "C" fn pouch_is_hdma_enabled(image: &[u8], value: &mut u16) -> u8
    ensures { Asks image.now on.IsHdmaEnabled result value.new }
{
    host::state::pouch_is_hdma_enabled(image, value)
}

#[unsafe(no_mangle)]
pub extern "C" fn pouch_update_timer(image: &mut [u8], cycles: u32) -> u8
    ensures { Changes image.old (on.UpdateTimer cycles) result image.new }
{
    host::state::pouch_update_timer(image, cycles)
}

#[unsafe(no_mangle)]
pub extern "C" fn pouch_cycles_to_overflow(image: &[u8], value: &mut u32) -> u8
    ensures { GivesCycles image.now result value.new }
{
    host::state::pouch_cycles_to_overflow(image, value)
}

#[unsafe(no_mangle)]
pub extern "C" fn pouch_press(image: &mut [u8], button: u8) -> u8
    ensures { Changes image.old (on.Press button) result image.new }
{
    host::state::pouch_press(image, button)
}

#[unsafe(no_mangle)]
pub extern "C" fn pouch_release(image: &mut [u8], button: u8) -> u8
    ensures { Changes image.old (on.Release button) result image.new }
{
    host::state::pouch_release(image, button)
}

#[unsafe(no_mangle)]
pub extern "C" fn pouch_update_joypad(image: &mut [u8]) -> u8
    ensures { Changes image.old on.UpdateJoypad result image.new }
{
    host::state::pouch_update_joypad(image)
}

#[unsafe(no_mangle)]
pub extern "C" fn pouch_clear_log(image: &mut [u8]) -> u8
    ensures { Changes image.old on.ClearLog result image.new }
{
    host::state::pouch_clear_log(image)
}

#[unsafe(no_mangle)]
pub extern "C" fn pouch_host(
    image: &mut [u8],
    disabled: bool,
    line: u8,
    signal: u8,
    mode: u8,
    delay: i32,
    counter: i32,
    aux: i32,
    window: i32,
) -> u8
    ensures { Changes image.old (on.Host (numbers_of disabled line signal mode delay counter aux window)) result
        image.new }
{
    host::state::pouch_host(
        image, disabled, line, signal, mode, delay, counter, aux, window,
    )
}
