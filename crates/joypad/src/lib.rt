// The eight buttons and FF00, as the Rust's joypad/mod.rs with `get_joypad_state`, `set_joypad_state` and the two tests of FF00 of mmu/mod.rs.
// FF00 (control) and FF0F (flags) are bytes of the high page: the caller passes them as stored. Leans on bit_utils and interrupt.
#![tactic(auto)]

ghost use Rattle.std.specs.Prelude.{◌≡◌, not, ◌%◌};
ghost use Rattle.bit_utils.specs.Bits.{is_set};
ghost use Rattle.joypad.specs.PanDocs.{low_four};
ghost use Rattle.joypad.specs.Joypad.{fresh, pressed_of, press_call, release_call, with_state, marked, polled, pad_read, actions_answer, directions_answer};

use interrupt::Interrupt;

pub mod buttons;

use buttons::Button;
use numbers::Refusal;

// The Rust's Controller, with `joypad_state` beside it. A bit of `released` and of `state` is 1 while its button is up.
#[derive(Clone, Copy, Debug, PartialEq, Eq)]
pub struct Controller {
    pub released: u8,
    pub action: bool,
    pub direction: bool,
    pub state: u8,
}

// After an update: the controller, and FF0F as stored.
#[derive(Clone, Copy, Debug, PartialEq, Eq)]
pub struct Polled {
    pub controller: Controller,
    pub flags: u8,
}

impl Controller {
    pub fn new() -> Controller
        ensures { result ≡ fresh }
    {
        Controller {
            released: 255,
            action: false,
            direction: false,
            state: 0,
        }
    }

    // A released button that goes down overwrites both marks; one that is down already stays so.
    #[tactic(auto, using(numbers::proofs::Named::name_of_ok, crate::proofs::Laws::high_half, crate::proofs::Laws::low_half), unfolding(crate::specs::Joypad::after_press))]
    pub fn press(self, button: u8) -> Result<Controller, Refusal>
        ensures { pressed_of self result ≡ press_call self button }
    {
        let known = Button::try_from(button)?;
        let bit = buttons::bit(known);
        if bit_utils::within::is_set(self.released, bit) {
            let down = bit_utils::within::unset_bit(self.released, bit);
            return Ok(Controller {
                released: down,
                action: 4 <= bit,
                direction: bit < 4,
                ..self
            });
        }
        Ok(self)
    }

    #[tactic(auto, using(numbers::proofs::Named::name_of_ok), unfolding(crate::specs::Joypad::after_release))]
    pub fn release(self, button: u8) -> Result<Controller, Refusal>
        ensures { pressed_of self result ≡ release_call self button }
    {
        let known = Button::try_from(button)?;
        let bit = buttons::bit(known);
        let up = bit_utils::within::set_bit(self.released, bit);
        Ok(Controller {
            released: up,
            ..self
        })
    }

    // What FF00 is read from, apart from `released`: only an update brings it up to date.
    pub fn set_joypad_state(self, state: u8) -> Controller
        ensures { result ≡ with_state self state }
    {
        Controller { state, ..self }
    }

    // Whether a mark waits for an update.
    #[tactic(auto, unfolding(crate::specs::Joypad::marked))]
    pub fn is_marked(self) -> bool
        ensures { result ≡ marked self }
    {
        self.action || self.direction
    }

    // One mark at most is taken, the action mark first.
    #[tactic(auto, unfolding(crate::specs::Joypad::polled))]
    pub fn update(self, control: u8, flags: u8) -> Polled
        ensures { result ≡ polled self control flags }
    {
        let mut next = self.set_joypad_state(self.released);
        if are_action_keys_enabled(control) && self.action {
            let by_action = interrupt::request(flags, Interrupt::Joypad);
            next.action = false;
            return Polled {
                controller: next,
                flags: by_action,
            };
        }
        if are_direction_keys_enabled(control) && self.direction {
            let by_direction = interrupt::request(flags, Interrupt::Joypad);
            next.direction = false;
            return Polled {
                controller: next,
                flags: by_direction,
            };
        }
        Polled {
            controller: next,
            flags,
        }
    }
}

// What FF00 reads. The Rust's third case, neither kind enabled, does not occur: the two tests never fail together.
// Where one of the selection bits 5 and 4 is 0, the low four bits are those of Pan Docs.
pub fn read(control: u8, state: u8) -> u8
    ensures value { result ≡ pad_read control state }
    ensures pandocs { is_set control 5 ≡ not (is_set control 4) → result % 16 ≡ low_four control state }
{
    if are_direction_keys_enabled(control) {
        return control / 16 * 16 + state % 16;
    }
    control / 16 * 16 + state / 16
}

// This and the next differ in one number, of which each says its meaning: one function with the number as an argument would say neither.
pub fn are_action_keys_enabled(control: u8) -> bool
    ensures { result ≡ actions_answer control }
{
    control / 16 % 4 != 2
}

pub fn are_direction_keys_enabled(control: u8) -> bool
    ensures { result ≡ directions_answer control }
{
    control / 16 % 4 != 1
}
