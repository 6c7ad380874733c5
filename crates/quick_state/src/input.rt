// The joypad's calls.
ghost use Rattle.std.specs.Prelude.{◌≡◌, Result};
ghost use Rattle.dispatch.specs.Step.{state_step, performed_done};
ghost use Rattle.dispatch.specs.declared.StateCall.{StateCall};
ghost use Rattle.dispatch.specs.declared.StateCall.TheVariants.{SetJoypadState, AreActionKeysEnabled, AreDirectionKeysEnabled, Press, Release, UpdateJoypad};
ghost use Rattle.entry.specs.Entry.{changed, state_entry, flag_given_of, ask_entry};
ghost use Rattle.input_calls.specs.Input.{button_call};
ghost use Rattle.joypad.specs.Joypad.{named, on_button, pressed_of};
ghost use Rattle.joypad.specs.declared.Controller.{Controller};
ghost use Rattle.joypad.specs.declared.buttons.Button.{Button};
ghost use Rattle.memory.specs.declared.Memory.{Memory};
ghost use Rattle.numbers.specs.Refusal.{number_given};
ghost use Rattle.numbers.specs.declared.Refusal.{Refusal};

use crate::taken_here;
use joypad::Controller;
use numbers::Refusal;

pub fn set_joypad_state(image: &mut [u8], state: u8) -> Result<(), Refusal>
    ensures { changed (number_given result) image.new ≡ state_entry image.old (SetJoypadState state) }
{
    taken_here(image)?;
    in_place::interrupts::set_joypad_state(image, state);
    Ok(())
}

pub fn are_action_keys_enabled(image: &[u8]) -> Result<bool, Refusal>
    ensures { flag_given_of result ≡ ask_entry image.now AreActionKeysEnabled }
{
    taken_here(image)?;
    Ok(in_place::interrupts::are_action_keys_enabled(image))
}

pub fn are_direction_keys_enabled(image: &[u8]) -> Result<bool, Refusal>
    ensures { flag_given_of result ≡ ask_entry image.now AreDirectionKeysEnabled }
{
    taken_here(image)?;
    Ok(in_place::interrupts::are_direction_keys_enabled(image))
}

// The joypad's own call on the controller of an image, put in place where it is called.
#[inline(always)]
fn on_controller<F: FnOnce(Controller, u8) -> Result<Controller, Refusal>>(
    image: &mut [u8],
    button: u8,
    call: F,
) -> Result<(), Refusal>
    requires { F.IsAlwaysCallable call }
    ensures { (c : StateCall) (f : Controller → Button → Controller)
        → ((m : Memory) → performed_done (button_call m (on_button f m.core.joypad (named button))) ≡ state_step m c)
        → ((k : Controller) (r : Result Controller Refusal) → F.post call k button r → pressed_of k r ≡ on_button f k (named button))
        → changed (number_given result) image.new ≡ state_entry image.old c }
{
    taken_here(image)?;
    let controller = in_place::interrupts::controller_at(image);
    let after = call(controller, button)?;
    in_place::interrupts::put_controller(image, after);
    Ok(())
}

// A button over 7 is refused by 7, after the image.
pub fn press(image: &mut [u8], button: u8) -> Result<(), Refusal>
    ensures { changed (number_given result) image.new ≡ state_entry image.old (Press button) }
{
    on_controller(image, button, Controller::press)
}

pub fn release(image: &mut [u8], button: u8) -> Result<(), Refusal>
    ensures { changed (number_given result) image.new ≡ state_entry image.old (Release button) }
{
    on_controller(image, button, Controller::release)
}

// The Rust's Controller::update.
pub fn update_joypad(image: &mut [u8]) -> Result<(), Refusal>
    ensures { changed (number_given result) image.new ≡ state_entry image.old UpdateJoypad }
{
    taken_here(image)?;
    in_place::interrupts::update_joypad(image);
    Ok(())
}
