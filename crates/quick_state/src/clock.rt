// The timer's calls.
ghost use Rattle.std.specs.Prelude.{◌≡◌, IfOk};
ghost use Rattle.std.specs.Option.{is_some};
ghost use Rattle.dispatch.specs.declared.StateCall.TheVariants.{UpdateTimer};
ghost use Rattle.entry.specs.Entry.{changed, state_entry};
ghost use Rattle.entry.specs.Host.{overflow_of, overflow_entry};
ghost use Rattle.image.specs.Load.{load_call};
ghost use Rattle.numbers.specs.Refusal.{number_given};
ghost use Rattle.registers.specs.State.{timer_of};
ghost use Rattle.timer.specs.PanDocs.{counting};

use crate::taken_here;
use numbers::Refusal;

// The Rust's Timer::update. Cycles over 65,536 are refused by 5, after the image.
pub fn update_timer(image: &mut [u8], cycles: u32) -> Result<(), Refusal>
    ensures { changed (number_given result) image.new ≡ state_entry image.old (UpdateTimer cycles) }
{
    taken_here(image)?;
    refusals::cycles_refused(cycles)?;
    in_place::interrupts::update_timer(image, cycles);
    Ok(())
}

// None where TIMA does not count.
pub fn cycles_to_overflow(image: &[u8]) -> Result<Option<u32>, Refusal>
    ensures { (overflow_of result ≡ overflow_entry image.now) × IfOk result (λ left. is_some left ≡ counting (timer_of (load_call image.now).state).tac) }
{
    taken_here(image)?;
    Ok(in_place::interrupts::cycles_to_overflow(image))
}
