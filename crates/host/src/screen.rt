// What a host that draws takes from an image and sets in it: the screen's numbers, the colours, OAM.
ghost use Rattle.std.specs.Prelude.{◌≡◌};
ghost use Rattle.entry.specs.EntryContracts.{FillsColors, FillsOam, Shows, Sets};
ghost use Rattle.entry.specs.declared.HostNumber.TheVariants.{Disabled, Line, Signal, Mode, Delay, Counter, Aux, Window};
ghost use Rattle.numbers.specs.Refusal.{number_given};

use entry::HostNumber;
use lcd::Lcd;
use numbers::{Refusal, number_given};

// The numbers of a refused image: those of the all-zero state.
const NONE: Lcd = Lcd {
    disabled: false,
    line: 0,
    signal: 0,
    mode: 0,
    delay: 0,
    counter: 0,
    aux: 0,
    window: 0,
};

// The eight numbers that `pouch_host` sets.
pub fn pouch_host_numbers(
    image: &[u8],
    disabled: &mut u8,
    line: &mut u8,
    signal: &mut u8,
    mode: &mut u8,
    delay: &mut i32,
    counter: &mut i32,
    aux: &mut i32,
    window: &mut i32,
) -> u8
    ensures { Shows image.now result disabled.new line.new signal.new mode.new
        delay.new counter.new aux.new window.new }
{
    let shown = quick_screen::host_numbers(image);
    let lcd = shown.unwrap_or(NONE);
    *disabled = u8::from(lcd.disabled);
    *line = lcd.line;
    *signal = lcd.signal;
    *mode = lcd.mode;
    *delay = lcd.delay;
    *counter = lcd.counter;
    *aux = lcd.aux;
    *window = lcd.window;
    number_given(&shown)
}

// The bytes of all colours: red, green and blue of 64.
const COLORS_LEN: usize = 192;

// All colours: the background's 32, then the sprites'.
pub fn pouch_colors(image: &[u8], colors: &mut [u8]) -> u8
    ensures { FillsColors image.now colors.old result colors.new }
{
    number_given(&put_colors(image, colors))
}

fn put_colors(image: &[u8], colors: &mut [u8]) -> Result<(), Refusal>
    ensures { FillsColors image.now colors.old (number_given result) colors.new }
{
    let memory = image::decode(image)?;
    if colors.len() != COLORS_LEN {
        return Err(Refusal::WrongLength);
    }
    let background = image::channels_of(memory.background);
    let sprites = image::channels_of(memory.sprites);
    packing::put(colors, 0, &background);
    packing::put(colors, COLORS_LEN / 2, &sprites);
    Ok(())
}

// OAM's 40 sprites.
pub fn pouch_oam(image: &[u8], oam: &mut [u8]) -> u8
    ensures { FillsOam image.now oam.old result oam.new }
{
    number_given(&quick_screen::oam(image, oam))
}

// One of the eight numbers, the others as they stand.

pub fn pouch_set_screen_disabled(image: &mut [u8], disabled: bool) -> u8
    ensures { Sets image.old (Disabled disabled) result image.new }
{
    quick_screen::set(image, HostNumber::Disabled(disabled))
}

pub fn pouch_set_scan_line(image: &mut [u8], line: u8) -> u8
    ensures { Sets image.old (Line line) result image.new }
{
    quick_screen::set(image, HostNumber::Line(line))
}

pub fn pouch_set_irq48_signal(image: &mut [u8], signal: u8) -> u8
    ensures { Sets image.old (Signal signal) result image.new }
{
    quick_screen::set(image, HostNumber::Signal(signal))
}

pub fn pouch_set_lcd_status_mode(image: &mut [u8], mode: u8) -> u8
    ensures { Sets image.old (Mode mode) result image.new }
{
    quick_screen::set(image, HostNumber::Mode(mode))
}

pub fn pouch_set_screen_enable_delay_cycles(image: &mut [u8], delay: i32) -> u8
    ensures { Sets image.old (Delay delay) result image.new }
{
    quick_screen::set(image, HostNumber::Delay(delay))
}

pub fn pouch_set_cycles_counter(image: &mut [u8], counter: i32) -> u8
    ensures { Sets image.old (Counter counter) result image.new }
{
    quick_screen::set(image, HostNumber::Counter(counter))
}

pub fn pouch_set_aux_cycles_counter(image: &mut [u8], aux: i32) -> u8
    ensures { Sets image.old (Aux aux) result image.new }
{
    quick_screen::set(image, HostNumber::Aux(aux))
}

pub fn pouch_set_window_line(image: &mut [u8], window: i32) -> u8
    ensures { Sets image.old (Window window) result image.new }
{
    quick_screen::set(image, HostNumber::Window(window))
}
