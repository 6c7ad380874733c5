// Interrupts, the timer and the joypad on the image.
#![tactic(auto, using(crate::proofs::Images::size))]

ghost use Rattle.std.specs.Prelude.{◌≡◌, ℕ, ◌≤◌, length};
ghost use Rattle.std.specs.Option.{is_some};
ghost use Rattle.image.specs.Layout.{image_len, image_of};
ghost use Rattle.image.specs.Load.{load_call};
ghost use Rattle.interrupt.specs.PanDocs.{first_of};
ghost use Rattle.joypad.specs.Joypad.{with_state, actions_answer, directions_answer};
ghost use Rattle.registers.specs.State.{loaded, stored, timer_of, with_timer, requested_in, removed_in, with_controller, polled_in};
ghost use Rattle.timer.specs.Overflow.{left_given, left_of};
ghost use Rattle.timer.specs.PanDocs.{counting};
ghost use Rattle.timer.specs.Timer.{updated};
ghost use Rattle.in_place.specs.Held.{Held};
ghost use Rattle.in_place.specs.Steps.{stepped_in};

use crate::{load, store};
use interrupt::Interrupt;
use joypad::Controller;
use memory::Clock;

// FF0F with an interrupt's bit changed.
fn on_flags<F: FnOnce(u8, Interrupt) -> u8>(image: &mut [u8], interrupt: Interrupt, change: F)
    requires held { Held image.old }
    requires callable { F.IsAlwaysCallable change }
    ensures { (next : ℕ) × F.post change (loaded (load_call image.old).state 0x0F) interrupt next × image.new ≡ image_of (stored (load_call image.old).state 0x0F next) }
{
    let flags = change(load(image, 0x0F), interrupt);
    store(image, 0x0F, flags);
}

pub fn request_interrupt(image: &mut [u8], interrupt: Interrupt)
    requires { Held image.old }
    ensures { image.new ≡ image_of (requested_in (load_call image.old).state interrupt) }
{
    on_flags(image, interrupt, interrupt::request);
}

pub fn remove_interrupt(image: &mut [u8], interrupt: Interrupt)
    requires { Held image.old }
    ensures { image.new ≡ image_of (removed_in (load_call image.old).state interrupt) }
{
    on_flags(image, interrupt, interrupt::remove);
}

pub fn get_interrupts(image: &[u8]) -> Option<Interrupt>
    requires { Held image.now }
    ensures { result ≡ first_of (loaded (load_call image.now).state 0xFF) (loaded (load_call image.now).state 0x0F) }
{
    interrupt::get_interrupts(load(image, 0xFF), load(image, 0x0F))
}

// The Rust's Timer::update. It leaves TMA and TAC.
pub fn update_timer(image: &mut [u8], cycles: u32)
    requires { Held image.old × (cycles ≤ 65536) }
    ensures { image.new ≡ image_of (with_timer (load_call image.old).state (updated (timer_of (load_call image.old).state) cycles)) }
{
    let clock = image::clock_at(image);
    let divided = timer::count_div(image[0x104], clock.div, cycles);
    let periods = timer::periods_in(image[0x107], clock.tima, cycles);
    image[0x104] = divided.div;
    step_tima_by(image, periods.full);
    let after = Clock {
        div: divided.cycles,
        tima: periods.rest,
    };
    image::put_clock(image, after);
}

// TIMA and FF0F after so many steps. Most updates make none.
fn step_tima_by(image: &mut [u8], count: u32)
    requires { length image.old ≡ image_len }
    ensures { image.new ≡ stepped_in image.old count }
{
    if 0 < count {
        let next = timer::step_tima_by(image[0x105], image[0x106], image[0x10F], count);
        image[0x105] = next.tima;
        image[0x10F] = next.flags;
    }
}

// How many cycles are left until TIMA overflows; None while it does not count.
pub fn cycles_to_overflow(image: &[u8]) -> Option<u32>
    requires { Held image.now }
    ensures { (left_given result ≡ left_of (timer_of (load_call image.now).state)) × (is_some result ≡ counting (timer_of (load_call image.now).state).tac) }
{
    let clock = image::clock_at(image);
    timer::cycles_to_overflow(image[0x107], image[0x105], clock.tima)
}

pub fn controller_at(image: &[u8]) -> Controller
    requires { Held image.now }
    ensures { result ≡ (load_call image.now).state.core.joypad }
{
    image::joypad_at(image)
}

// The joypad with FF0F as it is.
pub fn put_controller(image: &mut [u8], controller: Controller)
    requires { Held image.old }
    ensures { image.new ≡ image_of (with_controller (load_call image.old).state controller) }
{
    image::put_joypad(image, controller);
}

pub fn set_joypad_state(image: &mut [u8], state: u8)
    requires { Held image.old }
    ensures { image.new ≡ image_of (with_controller (load_call image.old).state (with_state (load_call image.old).state.core.joypad state)) }
{
    let controller = controller_at(image);
    let next = controller.set_joypad_state(state);
    put_controller(image, next);
}

// The Rust's Controller::update.
pub fn update_joypad(image: &mut [u8])
    requires { Held image.old }
    ensures { image.new ≡ image_of (polled_in (load_call image.old).state) }
{
    let controller = controller_at(image);
    if controller.is_marked() {
        let polled = controller.update(image[0x100], image[0x10F]);
        image[0x10F] = polled.flags;
        let after = polled.controller;
        image::put_joypad(image, after);
        return;
    }
    if controller.state != controller.released {
        let next = controller.set_joypad_state(controller.released);
        image::put_joypad(image, next);
    }
}

pub fn are_action_keys_enabled(image: &[u8]) -> bool
    requires { Held image.now }
    ensures { result ≡ actions_answer (loaded (load_call image.now).state 0) }
{
    joypad::are_action_keys_enabled(load(image, 0x00))
}

pub fn are_direction_keys_enabled(image: &[u8]) -> bool
    requires { Held image.now }
    ensures { result ≡ directions_answer (loaded (load_call image.now).state 0) }
{
    joypad::are_direction_keys_enabled(load(image, 0x00))
}
