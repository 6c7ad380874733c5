// Test, set and clear one bit of a byte, as the Rust's bit_utils.rs. A bit over 7, for which the Rust takes another bit, is refused by 7.
#![tactic(auto)]

ghost use Rattle.std.specs.Prelude.{◌≡◌, ◌<◌, MatchResult};
ghost use Rattle.numbers.specs.declared.Refusal.TheVariants.{Outside};
ghost use Rattle.bit_utils.specs.Bits.{tested, tested_of, changed, changed_of, set_bit, unset_bit};

pub mod within;

use numbers::Refusal;

// A bit of a byte.
fn bit_of_byte(bit: u8) -> Result<u8, Refusal>
    ensures { MatchResult result (λ n. (n ≡ bit) × (bit < 8)) (λ e. (e ≡ Outside) × (7 < bit)) }
{
    match bit {
        0..=7 => Ok(bit),
        _ => Err(Refusal::Outside),
    }
}

// The three stay three: each is one line over another function of bytes, and one function that takes that would be as long.
#[tactic(auto, unfolding(crate::specs::Bits::tested))]
pub fn is_set(byte: u8, bit: u8) -> Result<bool, Refusal>
    ensures { tested_of result ≡ tested byte bit }
{
    Ok(within::is_set(byte, bit_of_byte(bit)?))
}

#[tactic(auto, unfolding(crate::specs::Bits::changed))]
pub fn set_bit(byte: u8, bit: u8) -> Result<u8, Refusal>
    ensures { changed_of result ≡ changed set_bit byte bit }
{
    Ok(within::set_bit(byte, bit_of_byte(bit)?))
}

#[tactic(auto, unfolding(crate::specs::Bits::changed))]
pub fn unset_bit(byte: u8, bit: u8) -> Result<u8, Refusal>
    ensures { changed_of result ≡ changed unset_bit byte bit }
{
    Ok(within::unset_bit(byte, bit_of_byte(bit)?))
}
