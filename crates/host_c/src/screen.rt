// The exports on the screen, the colours and the state's numbers.
ghost use Rattle.entry.specs.EntryContracts.{FillsColors, FillsOam, Shows, Sets};
ghost use Rattle.entry.specs.declared.HostNumber.TheVariants.{Disabled, Line, Signal, Mode, Delay, Counter, Aux, Window};

#[unsafe(no_mangle)]
pub extern "C" fn pouch_host_numbers(
    image: &[u8],
    disabled: &mut u8,
    line: &mut u8,
    signal: &mut u8,
    mode: &mut u8,
    delay: &mut i32,
    counter: &mut i32,
    aux: &mut i32,
    window: &mut i32,
) -> u8
    ensures { Shows image.now result disabled.new line.new signal.new mode.new
        delay.new counter.new aux.new window.new }
{
    host::screen::pouch_host_numbers(
        image, disabled, line, signal, mode, delay, counter, aux, window,
    )
}

#[unsafe(no_mangle)]
pub extern "C" fn pouch_colors(image: &[u8], colors: &mut [u8]) -> u8
    ensures { FillsColors image.now colors.old result colors.new }
{
    host::screen::pouch_colors(image, colors)
}

#[unsafe(no_mangle)]
pub extern "C" fn pouch_oam(image: &[u8], oam: &mut [u8]) -> u8
    ensures { FillsOam image.now oam.old result oam.new }
{
    host::screen::pouch_oam(image, oam)
}

#[unsafe(no_mangle)]
pub extern "C" fn pouch_set_screen_disabled(image: &mut [u8], disabled: bool) -> u8
    ensures { Sets image.old (Disabled disabled) result image.new }
{
    host::screen::pouch_set_screen_disabled(image, disabled)
}

#[unsafe(no_mangle)]
pub extern "C" fn pouch_set_scan_line(image: &mut [u8], line: u8) -> u8
    ensures { Sets image.old (Line line) result image.new }
{
    host::screen::pouch_set_scan_line(image, line)
}

#[unsafe(no_mangle)]
pub extern "C" fn pouch_set_irq48_signal(image: &mut [u8], signal: u8) -> u8
    ensures { Sets image.old (Signal signal) result image.new }
{
    host::screen::pouch_set_irq48_signal(image, signal)
}

#[unsafe(no_mangle)]
pub extern "C" fn pouch_set_lcd_status_mode(image: &mut [u8], mode: u8) -> u8
    ensures { Sets image.old (Mode mode) result image.new }
{
    host::screen::pouch_set_lcd_status_mode(image, mode)
}

#[unsafe(no_mangle)]
pub extern "C" fn pouch_set_screen_enable_delay_cycles(image: &mut [u8], delay: i32) -> u8
    ensures { Sets image.old (Delay delay) result image.new }
{
    host::screen::pouch_set_screen_enable_delay_cycles(image, delay)
}

#[unsafe(no_mangle)]
pub extern "C" fn pouch_set_cycles_counter(image: &mut [u8], counter: i32) -> u8
    ensures { Sets image.old (Counter counter) result image.new }
{
    host::screen::pouch_set_cycles_counter(image, counter)
}

#[unsafe(no_mangle)]
pub extern "C" fn pouch_set_aux_cycles_counter(image: &mut [u8], aux: i32) -> u8
    ensures { Sets image.old (Aux aux) result image.new }
{
    host::screen::pouch_set_aux_cycles_counter(image, aux)
}

#[unsafe(no_mangle)]
pub extern "C" fn pouch_set_window_line(image: &mut [u8], window: i32) -> u8
    ensures { Sets image.old (Window window) result image.new }
{
    host::screen::pouch_set_window_line(image, window)
}
