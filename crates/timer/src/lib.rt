// The timer: DIV and TIMA after a number of cycles, as the Rust's timer.rs, on a record by value. FF0F is crate interrupt's.
// One step of DIV in 256 cycles, one of TIMA in a period of TAC: how many there are is a quotient, and no loop makes them.
#![tactic(auto)]

ghost use Rattle.std.specs.Prelude.{◌≡◌, ◌+◌, ◌*◌, ◌%◌, ◌<◌, ◌≤◌};
ghost use Rattle.std.specs.Option.{is_some};
ghost use Rattle.timer.specs.PanDocs.{period, counting};
ghost use Rattle.timer.specs.AtOnce.{periods_in, stepped};
ghost use Rattle.timer.specs.Timer.{updated_of, divided_of, divided, counted, update_call};
ghost use Rattle.timer.specs.Overflow.{left_given, cycles_left};
ghost use Rattle.timer.specs.Promises.{Promises};

use interrupt::Interrupt;
use numbers::Refusal;

pub mod lent;

// FF04..FF07 and FF0F as the page stores them, with the two remainders.
#[derive(Clone, Copy, Debug, PartialEq, Eq)]
pub struct Timer {
    pub div: u8,
    pub tima: u8,
    pub tma: u8,
    pub tac: u8,
    pub flags: u8,
    pub div_cycles: u8,
    pub tima_cycles: u16,
}

// DIV, and the cycles since its last step.
#[derive(Clone, Copy, Debug, PartialEq, Eq)]
pub struct Divided {
    pub div: u8,
    pub cycles: u8,
}

// TIMA, and FF0F.
#[derive(Clone, Copy, Debug, PartialEq, Eq)]
pub struct Stepped {
    pub tima: u8,
    pub flags: u8,
}

// Full periods, and the cycles since the last of them.
#[derive(Clone, Copy, Debug, PartialEq, Eq)]
pub struct Periods {
    pub full: u32,
    pub rest: u16,
}

// Cycles for one step of TIMA, by TAC's bits 1..0.
const PERIODS: [u16; 4] = [1024, 16, 64, 256];

#[tactic(auto, using(crate::proofs::Laws::table_period, crate::proofs::Laws::period_bounds))]
fn period_of(tac: u8) -> u16
    ensures { (result ≡ period tac) × ((0 < result) × (result ≤ 1024)) }
{
    let i = (tac % 4) as usize;
    PERIODS[i]
}

// DIV after so many steps.
fn step_div(div: u8, count: u32) -> u8
    ensures { result ≡ (div + count) % 256 }
{
    div.wrapping_add((count % 256) as u8)
}

// By bytes, here and below, and no `Timer`: an image's update has the bytes of its page alone.
// TIMA and FF0F after so many steps: TIMA overflows at the step 256 - TIMA, and from there on every 256 - TMA steps.
#[tactic(auto, unfolding(crate::specs::AtOnce::stepped))]
pub fn step_tima_by(tima: u8, tma: u8, flags: u8, count: u32) -> Stepped
    ensures { result ≡ stepped tima tma flags count }
{
    let first = 256 - tima as u32;
    if count < first {
        return Stepped {
            tima: tima.wrapping_add(count as u8),
            flags,
        };
    }
    let since = (count - first) % (256 - tma as u32);
    Stepped {
        tima: tma.wrapping_add(since as u8),
        flags: interrupt::request(flags, Interrupt::Timer),
    }
}

// `cycles ≤ 65536`, here and below, is what a call tests once, before it comes here: a type of so many cycles would be taken apart at each sum.
pub fn count_div(div: u8, rest: u8, cycles: u32) -> Divided
    requires { cycles ≤ 65536 }
    ensures { result ≡ divided_of ((256 * div + rest + cycles) % 65536) }
{
    let total = rest as u32 + cycles;
    let next = step_div(div, total / 256);
    Divided {
        div: next,
        cycles: (total % 256) as u8,
    }
}

#[tactic(auto, unfolding(crate::specs::Timer::divided))]
fn update_div(timer: Timer, cycles: u32) -> Timer
    requires { cycles ≤ 65536 }
    ensures { result ≡ divided timer cycles }
{
    let after = count_div(timer.div, timer.div_cycles, cycles);
    Timer {
        div: after.div,
        div_cycles: after.cycles,
        ..timer
    }
}

// How many periods of TIMA are full after so many cycles, and the cycles since the last of them. While it does not count: none, and `rest` as it was.
#[tactic(auto, unfolding(crate::specs::AtOnce::periods_in))]
pub fn periods_in(tac: u8, rest: u16, cycles: u32) -> Periods
    requires { cycles ≤ 65536 }
    ensures { result ≡ periods_in tac rest cycles }
{
    if bit_utils::within::is_set(tac, 2) {
        let period = period_of(tac) as u32;
        let total = rest as u32 + cycles;
        // Most updates fill no period, and need no division.
        if total < period {
            return Periods {
                full: 0,
                rest: total as u16,
            };
        }
        return Periods {
            full: total / period,
            rest: (total % period) as u16,
        };
    }
    Periods { full: 0, rest }
}

#[tactic(auto, using(crate::proofs::AtOnce::counted_at_once))]
fn update_tima(timer: Timer, cycles: u32) -> Timer
    requires { cycles ≤ 65536 }
    ensures { result ≡ counted timer cycles }
{
    let periods = periods_in(timer.tac, timer.tima_cycles, cycles);
    let stepped = step_tima_by(timer.tima, timer.tma, timer.flags, periods.full);
    Timer {
        tima: stepped.tima,
        flags: stepped.flags,
        tima_cycles: periods.rest,
        ..timer
    }
}

// The Rust's Timer::update.
#[tactic(auto, unfolding(crate::specs::Timer::update_call))]
pub fn update(timer: Timer, cycles: u32) -> Result<Timer, Refusal>
    ensures { updated_of timer result ≡ update_call timer cycles }
{
    if 1023 < timer.tima_cycles {
        return Err(Refusal::OutOfRange);
    }
    if 65536 < cycles {
        return Err(Refusal::TooManyCycles);
    }
    let divided = update_div(timer, cycles);
    Ok(update_tima(divided, cycles))
}

// How many cycles are left until TIMA overflows and requests Timer; 0 where an update by 0 makes it, and `None` where TIMA does not count.
#[tactic(auto, unfolding(crate::specs::Overflow::cycles_left))]
pub fn cycles_to_overflow(tac: u8, tima: u8, rest: u16) -> Option<u32>
    ensures { (left_given result ≡ cycles_left tac tima rest) × (is_some result ≡ counting tac) }
{
    if !bit_utils::within::is_set(tac, 2) {
        return None;
    }
    let due = (256 - tima as u32) * period_of(tac) as u32;
    Some(due.saturating_sub(rest as u32))
}

// The laws of specs/Promises.antt, as a contract: its proof hands them over.
pub fn promises_hold()
    ensures { Promises }
{}
