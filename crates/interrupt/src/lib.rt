// The five interrupts, as the Rust's interrupt.rs with `request_interrupt`, `remove_interrupt` and `get_interrupts` of mmu/mod.rs, on the bytes
// FF0F (flags) and FFFF (enable). Leans on bit_utils.
#![tactic(auto)]

ghost use Rattle.std.specs.Prelude.{◌≡◌, ◌<◌, ok_or};
ghost use Rattle.std.specs.List.{find};
ghost use Rattle.bit_utils.specs.Bits.{is_set};
ghost use Rattle.numbers.specs.declared.Refusal.TheVariants.{Outside};
ghost use Rattle.interrupt.specs.PanDocs.{bit_of, first_of, flags_read};
ghost use Rattle.interrupt.specs.Flags.{requested, removed, named};

use numbers::Refusal;

#[derive(Clone, Copy, Debug, PartialEq, Eq)]
pub enum Interrupt {
    Vblank = 0,
    Lcd = 1,
    Timer = 2,
    Serial = 3,
    Joypad = 4,
}

// The interrupt's bit in FF0F and FFFF: the way back of `try_from`, and yet no `From`. That the bit is below 5 is a clause, which its callers need; of a
// `From` each of their proofs would have to name the instance for it.
pub fn bit(interrupt: Interrupt) -> u8
    ensures { (result ≡ bit_of interrupt) × (result < 5) }
{
    interrupt as u8
}

// The interrupt of a number; a number over 4 names none.
impl TryFrom<u8> for Interrupt {
    type Error = Refusal;

    ghost try_from_gives = { λ n r. r ≡ ok_or (named n) Outside };

    #[tactic(auto, unfolding(crate::specs::Flags::named))]
    fn try_from(n: u8) -> Result<Interrupt, Refusal> {
        match n {
            0 => Ok(Interrupt::Vblank),
            1 => Ok(Interrupt::Lcd),
            2 => Ok(Interrupt::Timer),
            3 => Ok(Interrupt::Serial),
            4 => Ok(Interrupt::Joypad),
            _ => Err(Refusal::Outside),
        }
    }
}

// FF0F as it reads: the upper three bits are 1.
pub fn read(flags: u8) -> u8
    ensures { result ≡ flags_read flags }
{
    flags | 0xE0
}

// FF0F after a request. The Rust goes through read and write, which keep five bits.
pub fn request(flags: u8, interrupt: Interrupt) -> u8
    ensures { result ≡ requested flags interrupt }
{
    let n = bit(interrupt);
    bit_utils::within::set_bit(flags % 32, n)
}

// FF0F after a removal: one call, as the request is, of the other of bit_utils' two; one function of both would be longer than they are.
pub fn remove(flags: u8, interrupt: Interrupt) -> u8
    ensures { result ≡ removed flags interrupt }
{
    let n = bit(interrupt);
    bit_utils::within::unset_bit(flags % 32, n)
}

// In the order in which they are served.
const ORDER: [Interrupt; 5] = [
    Interrupt::Vblank,
    Interrupt::Lcd,
    Interrupt::Timer,
    Interrupt::Serial,
    Interrupt::Joypad,
];

fn first_in(order: &[Interrupt], check: u8) -> Option<Interrupt>
    ensures { result ≡ find (λ i. is_set check (bit_of i)) order.now }
{
    order
        .iter()
        .copied()
        .find(|i| bit_utils::within::is_set(check, bit(*i)))
}

// The interrupt that is served first.
#[tactic(auto, using(crate::proofs::Laws::first_in_order))]
pub fn get_interrupts(enable: u8, flags: u8) -> Option<Interrupt>
    ensures { result ≡ first_of enable flags }
{
    first_in(&ORDER, enable & flags)
}
