// The screen's calls on the image itself, as crate quick_state has the others; and what a host that draws takes of an image and sets there: the screen's numbers,
// OAM. A call that sets one number asks whether the image is taken in two (`image::mapper_taken`, `image::rest_taken`), each put in place.
#![tactic(auto)]

ghost use Rattle.std.specs.Prelude.{◌≡◌, ◌≤◌, length};
ghost use Rattle.std.proofs.Math.Seq.{paste};
ghost use Rattle.dispatch.specs.Step.{state_step, performed_done};
ghost use Rattle.dispatch.specs.declared.StateCall.{StateCall};
ghost use Rattle.dispatch.specs.declared.StateCall.TheVariants.{EnableScreen, DisableScreen, ResetWindowLine, CompareLyToLyc, DoScanlineWrite, DoLycWrite, DoLcdControlWrite, DoLcdStatusWrite, Host};
ghost use Rattle.entry.specs.Entry.{changed, state_entry};
ghost use Rattle.entry.specs.Host.{numbers_shown, numbers_entry, with_number, set_entry, oam_entry};
ghost use Rattle.image.specs.Layout.{image_of};
ghost use Rattle.image.specs.Load.{stored, load_call};
ghost use Rattle.in_place.specs.Held.{Held};
ghost use Rattle.memory.specs.declared.Memory.{Memory};
ghost use Rattle.numbers.specs.Refusal.{number_given};
ghost use Rattle.refusals.specs.Answers as answer;
ghost use Rattle.refusals.specs.Refusal.{refused_state};
ghost use Rattle.registers.specs.State.{hosted};

use entry::HostNumber;
use lcd::Lcd;
use numbers::Refusal;

// A call on the screen of an image that is taken.
fn on_image<F: FnOnce(&mut [u8])>(image: &mut [u8], change: F) -> Result<(), Refusal>
    requires { (a : _) → Held a.now → F.pre change a }
    ensures { (c : StateCall) (f : Memory → Memory)
        → ((m : Memory) → performed_done (answer.changed (refused_state m) m (f m)) ≡ state_step m c)
        → ((a : _) (b : _) → Held a.now → F.post change a tt b → b.now ≡ image_of (f (load_call a.now).state))
        → changed (number_given result) image.new ≡ state_entry image.old c }
{
    image::taken(image)?;
    change(image);
    Ok(())
}

pub fn enable_screen(image: &mut [u8]) -> Result<(), Refusal>
    ensures { changed (number_given result) image.new ≡ state_entry image.old EnableScreen }
{
    on_image(image, in_place::screen::enable_screen)
}

pub fn disable_screen(image: &mut [u8]) -> Result<(), Refusal>
    ensures { changed (number_given result) image.new ≡ state_entry image.old DisableScreen }
{
    on_image(image, in_place::screen::disable_screen)
}

pub fn reset_window_line(image: &mut [u8]) -> Result<(), Refusal>
    ensures { changed (number_given result) image.new ≡ state_entry image.old ResetWindowLine }
{
    on_image(image, in_place::screen::reset_window_line)
}

pub fn compare_ly_to_lyc(image: &mut [u8]) -> Result<(), Refusal>
    ensures { changed (number_given result) image.new ≡ state_entry image.old CompareLyToLyc }
{
    on_image(image, in_place::screen::compare_ly_to_lyc)
}

pub fn do_scanline_write(image: &mut [u8], value: u8) -> Result<(), Refusal>
    ensures { changed (number_given result) image.new ≡ state_entry image.old (DoScanlineWrite value) }
{
    on_image(
        image,
        |image| in_place::screen::do_scanline_write(image, value),
    )
}

pub fn do_lyc_write(image: &mut [u8], value: u8) -> Result<(), Refusal>
    ensures { changed (number_given result) image.new ≡ state_entry image.old (DoLycWrite value) }
{
    on_image(image, |image| in_place::screen::do_lyc_write(image, value))
}

pub fn do_lcd_control_write(image: &mut [u8], value: u8) -> Result<(), Refusal>
    ensures { changed (number_given result) image.new ≡ state_entry image.old (DoLcdControlWrite value) }
{
    on_image(
        image,
        |image| in_place::screen::do_lcd_control_write(image, value),
    )
}

pub fn do_lcd_status_write(image: &mut [u8], value: u8) -> Result<(), Refusal>
    ensures { changed (number_given result) image.new ≡ state_entry image.old (DoLcdStatusWrite value) }
{
    on_image(
        image,
        |image| in_place::screen::do_lcd_status_write(image, value),
    )
}

// The eight numbers, to any values.
pub fn host(image: &mut [u8], lcd: Lcd) -> Result<(), Refusal>
    ensures { changed (number_given result) image.new ≡ state_entry image.old (Host lcd) }
{
    on_image(image, |image| in_place::screen::host(image, lcd))
}

// The field of one of the eight numbers.
fn put_number(image: &mut [u8], number: HostNumber)
    requires { Held image.old }
    ensures { image.new ≡ image_of (hosted (load_call image.old).state (with_number (load_call image.old).state.core.lcd number)) }
{
    match number {
        HostNumber::Disabled(x) => places::put_flag(image, image::DISABLED_AT, x),
        HostNumber::Line(x) => places::put_field::<2>(image, image::LINE_AT, 8, x as u64),
        HostNumber::Signal(x) => places::put_field::<2>(image, image::SIGNAL_AT, 8, x as u64),
        HostNumber::Mode(x) => places::put_field::<2>(image, image::MODE_AT, 8, x as u64),
        HostNumber::Delay(x) => image::put_signed(image, image::DELAY_AT, x),
        HostNumber::Counter(x) => image::put_signed(image, image::COUNTER_AT, x),
        HostNumber::Aux(x) => image::put_signed(image, image::AUX_AT, x),
        HostNumber::Window(x) => image::put_signed(image, image::WINDOW_AT, x),
    }
}

// One of the eight numbers, the others as they stand.
fn put(image: &mut [u8], number: HostNumber) -> Result<(), Refusal>
    ensures { changed (number_given result) image.new ≡ set_entry image.old number }
{
    image::mapper_taken(image)?;
    image::rest_taken(image)?;
    put_number(image, number);
    Ok(())
}

// The same with its number: eight entries call it, and as a Result each would take two instructions more (bench/budgets.txt).
pub fn set(image: &mut [u8], number: HostNumber) -> u8
    ensures { changed result image.new ≡ set_entry image.old number }
{
    numbers::number_given(&put(image, number))
}

// The eight numbers.
pub fn host_numbers(image: &[u8]) -> Result<Lcd, Refusal>
    ensures { numbers_shown result ≡ numbers_entry image.now }
{
    image::taken(image)?;
    Ok(image::lcd_at(image))
}

// The bytes of 40 sprites.
const OAM_LEN: usize = 160;

// A loop by hand: `copy_from_slice` of 160 bytes is a call, seven instructions more (bench/budgets.txt), where this becomes ten loads and stores.
fn copy(out: &mut [u8], src: &[u8])
    requires { length src.now ≤ length out.old }
    ensures { out.new ≡ paste out.old 0 src.now (length src.now) }
{
    for i in 0..src.len() {
        out[i] = src[i];
    }
}

// FE00..FE9F: an image begins with them.
pub fn oam(image: &[u8], out: &mut [u8]) -> Result<(), Refusal>
    ensures { stored (number_given result) out.new ≡ oam_entry image.now out.old }
{
    image::taken(image)?;
    if out.len() != OAM_LEN {
        return Err(Refusal::WrongLength);
    }
    copy(out, &image[0..OAM_LEN]);
    Ok(())
}
