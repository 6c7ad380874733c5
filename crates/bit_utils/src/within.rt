// The three for a bit that the caller knows to be at most 7: what the crates above call. Line by line the Rust's.
ghost use Rattle.std.specs.Prelude.{◌≡◌, ◌<◌};
ghost use Rattle.bit_utils.specs.Bits.{is_set, set_bit, unset_bit};

#[tactic(auto, using(crate::proofs::Laws::test_mask))]
pub fn is_set(byte: u8, bit: u8) -> bool
    requires { bit < 8 }
    ensures { result ≡ is_set byte bit }
{
    byte & (1 << bit) != 0
}

#[tactic(auto, using(crate::proofs::Laws::set_mask))]
pub fn set_bit(byte: u8, bit: u8) -> u8
    requires { bit < 8 }
    ensures { result ≡ set_bit byte bit }
{
    byte | (1 << bit)
}

#[tactic(auto, using(crate::proofs::Laws::unset_mask))]
pub fn unset_bit(byte: u8, bit: u8) -> u8
    requires { bit < 8 }
    ensures { result ≡ unset_bit byte bit }
{
    byte & !(1 << bit)
}
