// Interrupts, the timer and the joypad on the state: FF00, FF04..FF07, FF0F and FFFF of the page with the groups that belong to them.
ghost use Rattle.std.specs.Prelude.{◌≡◌, ℕ};
ghost use Rattle.interrupt.specs.PanDocs.{first_of};
ghost use Rattle.joypad.specs.Joypad.{with_state, actions_answer, directions_answer};
ghost use Rattle.registers.specs.State.{loaded, stored, timer_of, with_timer, requested_in, removed_in, with_controller, polled_in};

use crate::{load, store};
use interrupt::Interrupt;
use joypad::Controller;
use memory::{Clock, Memory};
use timer::Timer;

// FF0F with an interrupt's bit changed.
fn on_flags<F: FnOnce(u8, Interrupt) -> u8>(
    memory: Memory,
    interrupt: Interrupt,
    change: F,
) -> Memory
    requires { F.IsAlwaysCallable change }
    ensures { (next : ℕ) × F.post change (loaded memory 0x0F) interrupt next × result ≡ stored memory 0x0F next }
{
    store(memory, 0x0F, change(load(memory, 0x0F), interrupt))
}

pub fn request_interrupt(memory: Memory, interrupt: Interrupt) -> Memory
    ensures { result ≡ requested_in memory interrupt }
{
    on_flags(memory, interrupt, interrupt::request)
}

pub fn remove_interrupt(memory: Memory, interrupt: Interrupt) -> Memory
    ensures { result ≡ removed_in memory interrupt }
{
    on_flags(memory, interrupt, interrupt::remove)
}

pub fn get_interrupts(memory: Memory) -> Option<Interrupt>
    ensures { result ≡ first_of (loaded memory 0xFF) (loaded memory 0x0F) }
{
    interrupt::get_interrupts(load(memory, 0xFF), load(memory, 0x0F))
}

pub fn timer_of(memory: Memory) -> Timer
    ensures { result ≡ timer_of memory }
{
    Timer {
        div: load(memory, 0x04),
        tima: load(memory, 0x05),
        tma: load(memory, 0x06),
        tac: load(memory, 0x07),
        flags: load(memory, 0x0F),
        div_cycles: memory.core.clock.div,
        tima_cycles: memory.core.clock.tima,
    }
}

pub fn with_timer(mut memory: Memory, timer: Timer) -> Memory
    ensures { result ≡ with_timer memory timer }
{
    memory.page[0x04] = timer.div;
    memory.page[0x05] = timer.tima;
    memory.page[0x0F] = timer.flags;
    memory.core.clock = Clock {
        div: timer.div_cycles,
        tima: timer.tima_cycles,
    };
    memory
}

// The joypad with FF0F as it is.
pub fn with_controller(mut memory: Memory, controller: Controller) -> Memory
    ensures { result ≡ with_controller memory controller }
{
    memory.core.joypad = controller;
    memory
}

pub fn set_joypad_state(memory: Memory, state: u8) -> Memory
    ensures { result ≡ with_controller memory (with_state memory.core.joypad state) }
{
    with_controller(memory, memory.core.joypad.set_joypad_state(state))
}

// The Rust's Controller::update.
pub fn update_joypad(memory: Memory) -> Memory
    ensures { result ≡ polled_in memory }
{
    let polled = memory
        .core
        .joypad
        .update(load(memory, 0x00), load(memory, 0x0F));
    with_controller(store(memory, 0x0F, polled.flags), polled.controller)
}

pub fn are_action_keys_enabled(memory: Memory) -> bool
    ensures { result ≡ actions_answer (loaded memory 0) }
{
    joypad::are_action_keys_enabled(load(memory, 0x00))
}

pub fn are_direction_keys_enabled(memory: Memory) -> bool
    ensures { result ≡ directions_answer (loaded memory 0) }
{
    joypad::are_direction_keys_enabled(load(memory, 0x00))
}
