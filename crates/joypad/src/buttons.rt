// The eight buttons: their numbers, in the order of the Rust's `button_to_buttons`, and their bits, as its buttons.rs.
ghost use Rattle.std.specs.Prelude.{◌≡◌, ◌<◌, ok_or};
ghost use Rattle.numbers.specs.declared.Refusal.TheVariants.{Outside};
ghost use Rattle.joypad.specs.Joypad.{named, bit_of};

use numbers::Refusal;

#[derive(Clone, Copy, Debug, PartialEq, Eq)]
pub enum Button {
    Up,
    Down,
    Left,
    Right,
    A,
    B,
    Start,
    Select,
}

// The button of a number; a number over 7 names none.
impl TryFrom<u8> for Button {
    type Error = Refusal;

    ghost try_from_gives = { λ n r. r ≡ ok_or (named n) Outside };

    #[tactic(auto, unfolding(crate::specs::Joypad::named))]
    fn try_from(n: u8) -> Result<Button, Refusal> {
        match n {
            0 => Ok(Button::Up),
            1 => Ok(Button::Down),
            2 => Ok(Button::Left),
            3 => Ok(Button::Right),
            4 => Ok(Button::A),
            5 => Ok(Button::B),
            6 => Ok(Button::Start),
            7 => Ok(Button::Select),
            _ => Err(Refusal::Outside),
        }
    }
}

// The button's bit among the eight. A function, no `From`: it says which bit of a byte is the button's, and is no
// conversion of the button. A match, as the bits go in another order than the numbers.
#[tactic(auto, unfolding(crate::specs::Joypad::bit_of))]
pub fn bit(button: Button) -> u8
    ensures { (result ≡ bit_of button) × (result < 8) }
{
    match button {
        Button::Right => 0,
        Button::Left => 1,
        Button::Up => 2,
        Button::Down => 3,
        Button::A => 4,
        Button::B => 5,
        Button::Select => 6,
        Button::Start => 7,
    }
}
