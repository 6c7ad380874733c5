// The LCD functions on the image: the crate lcd's, on the screen and its registers.
#![tactic(auto, using(crate::proofs::Images::size), unfolding(registers::specs::State::on_screen))]

ghost use Rattle.std.specs.Prelude.{◌≡◌};
ghost use Rattle.image.specs.Layout.{image_of};
ghost use Rattle.image.specs.Load.{load_call};
ghost use Rattle.lcd.specs.declared.Screen.{Screen};
ghost use Rattle.lcd.specs.Lcd.{screen_enabled, screen_disabled, window_line_reset, ly_compared, scanline_written, lyc_written, control_written, status_written};
ghost use Rattle.registers.specs.State.{screen_of, with_screen, on_screen, hosted};
ghost use Rattle.in_place.specs.Held.{Held};

use lcd::{Lcd, Screen};

fn screen_at(image: &[u8]) -> Screen
    requires { Held image.now }
    ensures { result ≡ screen_of (load_call image.now).state }
{
    Screen {
        lcd: image::lcd_at(image),
        control: image[0x140],
        status: image[0x141],
        compare: image[0x145],
        wy: image[0x14A],
        flags: image[0x10F],
    }
}

fn put_screen(image: &mut [u8], screen: Screen)
    requires { Held image.old }
    ensures { image.new ≡ image_of (with_screen (load_call image.old).state screen) }
{
    image[0x140] = screen.control;
    image[0x141] = screen.status;
    image[0x145] = screen.compare;
    image[0x10F] = screen.flags;
    image::put_lcd(image, screen.lcd);
}

// An LCD function on the image: the screen is taken out, changed and put back.
fn on_screen<F: FnOnce(Screen) -> Screen>(image: &mut [u8], change: F)
    requires held { Held image.old }
    requires callable { F.IsAlwaysCallable change }
    ensures { (next : Screen) × F.post change (screen_of (load_call image.old).state) next × image.new ≡ image_of (with_screen (load_call image.old).state next) }
{
    let next = change(screen_at(image));
    put_screen(image, next);
}

pub fn enable_screen(image: &mut [u8])
    requires { Held image.old }
    ensures { image.new ≡ image_of (on_screen screen_enabled (load_call image.old).state) }
{
    on_screen(image, lcd::enable_screen);
}

pub fn disable_screen(image: &mut [u8])
    requires { Held image.old }
    ensures { image.new ≡ image_of (on_screen screen_disabled (load_call image.old).state) }
{
    on_screen(image, lcd::disable_screen);
}

pub fn reset_window_line(image: &mut [u8])
    requires { Held image.old }
    ensures { image.new ≡ image_of (on_screen window_line_reset (load_call image.old).state) }
{
    on_screen(image, lcd::reset_window_line);
}

pub fn compare_ly_to_lyc(image: &mut [u8])
    requires { Held image.old }
    ensures { image.new ≡ image_of (on_screen ly_compared (load_call image.old).state) }
{
    on_screen(image, lcd::compare_ly_to_lyc);
}

pub fn do_scanline_write(image: &mut [u8], value: u8)
    requires { Held image.old }
    ensures { image.new ≡ image_of (on_screen (λ s. scanline_written s value) (load_call image.old).state) }
{
    on_screen(image, |screen| lcd::do_scanline_write(screen, value));
}

pub fn do_lyc_write(image: &mut [u8], value: u8)
    requires { Held image.old }
    ensures { image.new ≡ image_of (on_screen (λ s. lyc_written s value) (load_call image.old).state) }
{
    on_screen(image, |screen| lcd::do_lyc_write(screen, value));
}

pub fn do_lcd_control_write(image: &mut [u8], value: u8)
    requires { Held image.old }
    ensures { image.new ≡ image_of (on_screen (λ s. control_written s value) (load_call image.old).state) }
{
    on_screen(image, |screen| lcd::do_lcd_control_write(screen, value));
}

pub fn do_lcd_status_write(image: &mut [u8], value: u8)
    requires { Held image.old }
    ensures { image.new ≡ image_of (on_screen (λ s. status_written s value) (load_call image.old).state) }
{
    on_screen(image, |screen| lcd::do_lcd_status_write(screen, value));
}

// The host's call: the eight numbers of the screen.
pub fn host(image: &mut [u8], lcd: Lcd)
    requires { Held image.old }
    ensures { image.new ≡ image_of (hosted (load_call image.old).state lcd) }
{
    image::put_lcd(image, lcd);
}
