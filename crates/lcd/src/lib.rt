// The LCD functions of the Rust's bus (mmu/mod.rs): the screen with the registers that they touch goes in by value and comes back.
// Leans on bit_utils for single bits and on interrupt for requests.
#![tactic(auto)]

ghost use Rattle.std.specs.Prelude.{◌≡◌};
ghost use Rattle.lcd.specs.PanDocs.{mode_selected};
ghost use Rattle.lcd.specs.Lcd.{numbers_of, with_lcd, with_signal, lcd_requested, screen_enabled, screen_disabled, window_line_reset, lyc_signalled, ly_equal, ly_differs, ly_compared, scanline_written, lyc_written, control_put, control_written, status_put, mode_signalled, status_written};

// What the host sets too: screen disabled, scan line, `irq48_signal`, LCD mode, and of the GpuCycles `screen_enable_delay_cycles`,
// `cycles_counter`, `aux_cycles_counter`, `window_line`.
#[derive(Clone, Copy, Debug, PartialEq, Eq)]
pub struct Lcd {
    pub disabled: bool,
    pub line: u8,
    pub signal: u8,
    pub mode: u8,
    pub delay: i32,
    pub counter: i32,
    pub aux: i32,
    pub window: i32,
}

// These with FF40, FF41, FF45, FF4A and FF0F as the page stores them.
#[derive(Clone, Copy, Debug, PartialEq, Eq)]
pub struct Screen {
    pub lcd: Lcd,
    pub control: u8,
    pub status: u8,
    pub compare: u8,
    pub wy: u8,
    pub flags: u8,
}

// The host's call: all eight numbers, to any values. `Lcd` is the struct of them; this one takes them apart, as document 01's call and `numbers_of` do.
pub fn host(
    disabled: bool,
    line: u8,
    signal: u8,
    mode: u8,
    delay: i32,
    counter: i32,
    aux: i32,
    window: i32,
) -> Lcd
    ensures { result ≡ numbers_of disabled line signal mode delay counter aux window }
{
    Lcd {
        disabled,
        line,
        signal,
        mode,
        delay,
        counter,
        aux,
        window,
    }
}

fn request_lcd(screen: Screen) -> Screen
    ensures { result ≡ lcd_requested screen }
{
    Screen {
        flags: interrupt::request(screen.flags, interrupt::Interrupt::Lcd),
        ..screen
    }
}

#[tactic(auto, unfolding(crate::specs::Lcd::screen_enabled))]
pub fn enable_screen(screen: Screen) -> Screen
    ensures { result ≡ screen_enabled screen }
{
    let mut next = screen;
    if next.lcd.disabled {
        next.lcd.delay = 244;
    }
    next
}

#[tactic(auto, using(crate::proofs::Masks::off_mask))]
pub fn disable_screen(screen: Screen) -> Screen
    ensures { result ≡ screen_disabled screen }
{
    Screen {
        lcd: Lcd {
            disabled: true,
            line: 0,
            signal: 0,
            mode: 0,
            counter: 0,
            aux: 0,
            ..screen.lcd
        },
        status: screen.status & 0x7C,
        ..screen
    }
}

#[tactic(auto, unfolding(crate::specs::Lcd::window_line_reset))]
pub fn reset_window_line(screen: Screen) -> Screen
    ensures { result ≡ window_line_reset screen }
{
    let mut next = screen;
    if next.lcd.window == 0 && next.lcd.line < 144 && next.wy < next.lcd.line {
        next.lcd.window = 144;
    }
    next
}

// The screen with another signal.
fn with_signal(screen: Screen, signal: u8) -> Screen
    ensures { result ≡ with_lcd screen (with_signal screen.lcd signal) }
{
    Screen {
        lcd: Lcd {
            signal,
            ..screen.lcd
        },
        ..screen
    }
}

// LY = LYC with its source selected.
#[tactic(auto, unfolding(crate::specs::Lcd::lyc_signalled))]
fn signal_lyc(screen: Screen) -> Screen
    ensures { result ≡ lyc_signalled screen }
{
    let signal = bit_utils::within::set_bit(screen.lcd.signal, 3);
    let next = with_signal(screen, signal);
    if screen.lcd.signal == 0 {
        return request_lcd(next);
    }
    next
}

#[tactic(auto, using(crate::proofs::Masks::lyc_stays), unfolding(crate::specs::Lcd::ly_equal))]
fn equal(screen: Screen) -> Screen
    ensures { result ≡ ly_equal screen }
{
    let status = bit_utils::within::set_bit(screen.status, 2);
    let next = Screen { status, ..screen };
    if bit_utils::within::is_set(status, 6) {
        return signal_lyc(next);
    }
    next
}

fn differ(screen: Screen) -> Screen
    ensures { result ≡ ly_differs screen }
{
    let status = bit_utils::within::unset_bit(screen.status, 2);
    let signal = bit_utils::within::unset_bit(screen.lcd.signal, 3);
    with_signal(Screen { status, ..screen }, signal)
}

#[tactic(auto, unfolding(crate::specs::Lcd::ly_compared))]
pub fn compare_ly_to_lyc(screen: Screen) -> Screen
    ensures { result ≡ ly_compared screen }
{
    if screen.lcd.disabled {
        return screen;
    }
    if screen.compare == screen.lcd.line {
        return equal(screen);
    }
    differ(screen)
}

#[tactic(auto, unfolding(crate::specs::Lcd::scanline_written))]
pub fn do_scanline_write(screen: Screen, value: u8) -> Screen
    ensures { result ≡ scanline_written screen value }
{
    if bit_utils::within::is_set(screen.lcd.line, 7) && !bit_utils::within::is_set(value, 7) {
        return disable_screen(screen);
    }
    screen
}

#[tactic(auto, unfolding(crate::specs::Lcd::lyc_written))]
pub fn do_lyc_write(screen: Screen, value: u8) -> Screen
    ensures { result ≡ lyc_written screen value }
{
    if screen.compare == value {
        return screen;
    }
    let next = Screen {
        compare: value,
        ..screen
    };
    if bit_utils::within::is_set(screen.control, 7) {
        return compare_ly_to_lyc(next);
    }
    next
}

// FF40 stored, and the window line where the window goes from off to on.
#[tactic(auto, unfolding(crate::specs::Lcd::control_put))]
fn put_control(screen: Screen, value: u8) -> Screen
    ensures { result ≡ control_put screen value }
{
    let next = Screen {
        control: value,
        ..screen
    };
    if bit_utils::within::is_set(screen.control, 5) {
        return next;
    }
    if bit_utils::within::is_set(value, 5) {
        return reset_window_line(next);
    }
    next
}

#[tactic(auto, unfolding(crate::specs::Lcd::control_written))]
pub fn do_lcd_control_write(screen: Screen, value: u8) -> Screen
    ensures { result ≡ control_written screen value }
{
    let next = put_control(screen, value);
    if bit_utils::within::is_set(value, 7) {
        return enable_screen(next);
    }
    disable_screen(next)
}

// FF41 stored, and the signal of each source that is not selected any more taken off.
#[tactic(auto, using(crate::proofs::Masks::sources_mask, crate::proofs::Masks::status_mask))]
fn put_status(screen: Screen, value: u8) -> Screen
    ensures { result ≡ status_put screen value }
{
    let status = (value & 0x78) | (screen.status & 0x07);
    let signal = screen.lcd.signal & ((status >> 3) & 0x0F);
    with_signal(Screen { status, ..screen }, signal)
}

// The mode's source is selected. The Rust tests the three in a row; at most one can hold, so the bits that it sets in its copy of the signal
// between them are never seen.
#[tactic(auto, unfolding(crate::specs::PanDocs::mode_selected))]
fn selected(status: u8, mode: u8) -> bool
    ensures { result ≡ mode_selected status mode }
{
    mode < 3 && bit_utils::within::is_set(status, 3 + mode)
}

#[tactic(auto, unfolding(crate::specs::Lcd::mode_signalled))]
fn signal_mode(screen: Screen) -> Screen
    ensures { result ≡ mode_signalled screen }
{
    if screen.lcd.signal == 0 && selected(screen.status, screen.lcd.mode) {
        return request_lcd(screen);
    }
    screen
}

#[tactic(auto, unfolding(crate::specs::Lcd::status_written))]
pub fn do_lcd_status_write(screen: Screen, value: u8) -> Screen
    ensures { result ≡ status_written screen value }
{
    let next = put_status(screen, value);
    if bit_utils::within::is_set(screen.control, 7) {
        let told = signal_mode(next);
        return compare_ly_to_lyc(told);
    }
    next
}
