// What our calls answer to a line's input, in bytes as a line has them. The mappers' are in mapper.rt.
use crate::letter::Letter;
use crate::mapper;
use interrupt::Interrupt;
use joypad::Controller;
use lines::answer::{Ours, padded};
use lines::line::flag;
use numbers::Refusal;
use timer::Timer;

fn bits(given: &[u8; 12]) -> Ours {
    let [byte, bit, ..] = *given;
    let tested = bit_utils::is_set(byte, bit)?;
    let set = bit_utils::set_bit(byte, bit)?;
    let unset = bit_utils::unset_bit(byte, bit)?;
    Ok(padded(&[u8::from(tested), set, unset]))
}

fn update_timer(given: &[u8; 12]) -> Ours {
    let [
        div,
        tima,
        tma,
        tac,
        flags,
        div_cycles,
        high,
        low,
        a,
        b,
        c,
        d,
    ] = *given;
    let before = Timer {
        div,
        tima,
        tma,
        tac,
        flags,
        div_cycles,
        tima_cycles: u16::from_be_bytes([high, low]),
    };
    let after = timer::update(before, u32::from_be_bytes([a, b, c, d]))?;
    let [high, low] = after.tima_cycles.to_be_bytes();
    Ok(padded(&[
        after.div,
        after.tima,
        after.tma,
        after.tac,
        after.flags,
        after.div_cycles,
        high,
        low,
    ]))
}

// The letters P and L: the controller after a key, which has no joypad_state.
fn keyed<F: FnOnce(Controller, u8) -> Result<Controller, Refusal>>(given: &[u8; 12], key: F) -> Ours
    requires { F.IsAlwaysCallable key }
{
    let [released, action, direction, button, ..] = *given;
    let before = Controller {
        released,
        action: flag(action)?,
        direction: flag(direction)?,
        state: 0,
    };
    let after = key(before, button)?;
    if after.state != 0 {
        return Err(Refusal::Outside);
    }
    Ok(padded(&[
        after.released,
        u8::from(after.action),
        u8::from(after.direction),
    ]))
}

fn poll(given: &[u8; 12]) -> Ours {
    let [control, state, released, action, direction, flags, ..] = *given;
    let before = Controller {
        released,
        action: flag(action)?,
        direction: flag(direction)?,
        state,
    };
    let polled = before.update(control, flags);
    let after = polled.controller;
    Ok(padded(&[
        control,
        after.state,
        after.released,
        u8::from(after.action),
        u8::from(after.direction),
        polled.flags,
    ]))
}

fn pad(given: &[u8; 12]) -> Ours {
    let [control, state, ..] = *given;
    Ok(padded(&[
        joypad::read(control, state),
        u8::from(joypad::are_action_keys_enabled(control)),
        u8::from(joypad::are_direction_keys_enabled(control)),
    ]))
}

fn interrupts(given: &[u8; 12]) -> Ours {
    let [enable, flags, number, ..] = *given;
    let named = Interrupt::try_from(number)?;
    // What waits, 5 for nothing.
    let waits = interrupt::get_interrupts(enable, flags).map_or(5, interrupt::bit);
    Ok(padded(&[
        waits,
        interrupt::request(flags, named),
        interrupt::remove(flags, named),
    ]))
}

pub fn give(letter: Letter, given: &[u8; 12], rom: &[u8], save: &[u8]) -> Ours {
    match letter {
        Letter::Bits => bits(given),
        Letter::Timer => update_timer(given),
        Letter::Press => keyed(given, Controller::press),
        Letter::Release => keyed(given, Controller::release),
        Letter::Poll => poll(given),
        Letter::Pad => pad(given),
        Letter::Write => mapper::write(given),
        Letter::Read => mapper::read(given, rom, save),
        Letter::Interrupts => interrupts(given),
    }
}
