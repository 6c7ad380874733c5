// Calls of the timer and the joypad on the bus: the Rust's `Timer::update`, `Controller::press`, `release` and `update`, and what FF00 selects.
// A call that reads stays a test and a read, as in crate state_calls.
#![tactic(auto, using(refusals::proofs::Answers::exit, refusals::proofs::Answers::refuses), unfolding(refusals::specs::Answers::changed, refusals::specs::Answers::flag_given, refusals::specs::Refusal::or_else))]

ghost use Rattle.std.specs.Prelude.{◌≡◌, Result};
ghost use Rattle.refusals.specs.Answers.{done_of, flag_of};
ghost use Rattle.joypad.specs.Joypad.{Pressed, pressed_of};
ghost use Rattle.joypad.specs.declared.Controller.{Controller};
ghost use Rattle.numbers.specs.declared.Refusal.{Refusal};
ghost use Rattle.input_calls.specs.Input.{button_call, set_joypad_state_call, action_keys_call, direction_keys_call, update_joypad_call, update_timer_call, press_call, release_call};

use joypad::Controller;
use memory::Memory;
use numbers::Refusal;

pub fn set_joypad_state(memory: Memory, state: u8) -> Result<Memory, Refusal>
    ensures { done_of memory result ≡ set_joypad_state_call memory state }
{
    refusals::on_state(
        memory,
        |memory| registers::interrupts::set_joypad_state(memory, state),
    )
}

pub fn are_action_keys_enabled(memory: Memory) -> Result<bool, Refusal>
    ensures { flag_of result ≡ action_keys_call memory }
{
    refusals::refused(memory)?;
    Ok(registers::interrupts::are_action_keys_enabled(memory))
}

pub fn are_direction_keys_enabled(memory: Memory) -> Result<bool, Refusal>
    ensures { flag_of result ≡ direction_keys_call memory }
{
    refusals::refused(memory)?;
    Ok(registers::interrupts::are_direction_keys_enabled(memory))
}

// The Rust's Timer::update: the timer taken out, updated and put back.
pub fn update_timer(memory: Memory, cycles: u32) -> Result<Memory, Refusal>
    ensures { done_of memory result ≡ update_timer_call memory cycles }
{
    refusals::refused(memory)?;
    let after = timer::update(registers::interrupts::timer_of(memory), cycles)?;
    Ok(registers::interrupts::with_timer(memory, after))
}

// The joypad's own call on the state's controller.
fn on_controller<F: FnOnce(Controller, u8) -> Result<Controller, Refusal>>(
    memory: Memory,
    button: u8,
    call: F,
) -> Result<Memory, Refusal>
    requires { F.IsAlwaysCallable call }
    ensures { (p : Pressed) → ((r : Result Controller Refusal) → F.post call memory.core.joypad button r → pressed_of memory.core.joypad r ≡ p)
        → done_of memory result ≡ button_call memory p }
{
    refusals::refused(memory)?;
    let after = call(memory.core.joypad, button)?;
    Ok(registers::interrupts::with_controller(memory, after))
}

pub fn press(memory: Memory, button: u8) -> Result<Memory, Refusal>
    ensures { done_of memory result ≡ press_call memory button }
{
    on_controller(memory, button, Controller::press)
}

pub fn release(memory: Memory, button: u8) -> Result<Memory, Refusal>
    ensures { done_of memory result ≡ release_call memory button }
{
    on_controller(memory, button, Controller::release)
}

// The Rust's Controller::update.
pub fn update_joypad(memory: Memory) -> Result<Memory, Refusal>
    ensures { done_of memory result ≡ update_joypad_call memory }
{
    refusals::on_state(memory, registers::interrupts::update_joypad)
}
