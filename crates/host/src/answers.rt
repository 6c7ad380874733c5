// Answers as the numbers and values that a C host gets: 0 where a call is refused.
ghost use Rattle.std.specs.Prelude.{◌≡◌};
ghost use Rattle.std.specs.Result.{result_unwrap_or};
ghost use Rattle.entry.specs.Entry.{given, flag_given_of, waiting_of};
ghost use Rattle.entry.specs.Host.{overflow_of};
ghost use Rattle.numbers.specs.Refusal.{number_given};

use interrupt::Interrupt;
use numbers::Refusal;

// What `pouch_cycles_to_overflow` gives where TIMA does not count.
const NEVER: u32 = 0xFFFF_FFFF;

pub fn hand<T: Copy>(answer: Result<T, Refusal>, zero: T, value: &mut T) -> u8
    ensures number { result ≡ number_given answer }
    ensures value { value.new ≡ result_unwrap_or answer zero }
{
    match answer {
        Ok(given) => {
            *value = given;
            numbers::DONE
        }
        Err(refusal) => {
            *value = zero;
            refusal.number()
        }
    }
}

pub fn hand_flag(answer: Result<bool, Refusal>, value: &mut u16) -> u8
    ensures { given result value.new ≡ flag_given_of answer }
{
    hand(answer.map(u16::from), 0, value)
}

pub fn hand_waiting(answer: Result<Option<Interrupt>, Refusal>, value: &mut u16) -> u8
    ensures { given result value.new ≡ waiting_of answer }
{
    hand(answer.map(dispatch::pending_number), 0, value)
}

pub fn hand_cycles(answer: Result<Option<u32>, Refusal>, value: &mut u32) -> u8
    ensures { given result value.new ≡ overflow_of answer }
{
    hand(answer.map(|left| left.unwrap_or(NEVER)), 0, value)
}
