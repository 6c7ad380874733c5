// The interrupts' calls.
ghost use Rattle.std.specs.Prelude.{◌≡◌};
ghost use Rattle.dispatch.specs.Step.{state_step, performed_done};
ghost use Rattle.dispatch.specs.declared.StateCall.{StateCall};
ghost use Rattle.dispatch.specs.declared.StateCall.TheVariants.{GetInterrupts, RequestInterrupt, RemoveInterrupt};
ghost use Rattle.entry.specs.Entry.{changed, state_entry, waiting_of, ask_entry};
ghost use Rattle.image.specs.Layout.{image_of};
ghost use Rattle.image.specs.Load.{load_call};
ghost use Rattle.in_place.specs.Held.{Held};
ghost use Rattle.interrupt.specs.Flags.{named};
ghost use Rattle.interrupt.specs.declared.Interrupt.{Interrupt};
ghost use Rattle.memory.specs.declared.Memory.{Memory};
ghost use Rattle.numbers.specs.Refusal.{number_given};
ghost use Rattle.state_calls.specs.State.{on_interrupt};

use crate::taken_here;
use interrupt::Interrupt;
use numbers::Refusal;

// Asked before `try_from`, which refuses the same: two instructions less (bench/budgets.txt).
const LAST: u8 = 4;

// The interrupt that is served first.
pub fn get_interrupts(image: &[u8]) -> Result<Option<Interrupt>, Refusal>
    ensures { waiting_of result ≡ ask_entry image.now GetInterrupts }
{
    taken_here(image)?;
    Ok(in_place::interrupts::get_interrupts(image))
}

// A call on the interrupt of a number: one over 4 is refused by 7, after the image. Put in place where it is called.
#[inline(always)]
fn on_interrupt<F: FnOnce(&mut [u8], Interrupt)>(
    image: &mut [u8],
    number: u8,
    change: F,
) -> Result<(), Refusal>
    requires { (a : _) (k : Interrupt) → Held a.now → F.pre change a k }
    ensures { (c : StateCall) (f : Memory → Interrupt → Memory)
        → ((m : Memory) → performed_done (on_interrupt m f (named number)) ≡ state_step m c)
        → ((a : _) (k : Interrupt) (b : _) → Held a.now → F.post change a k tt b → b.now ≡ image_of (f (load_call a.now).state k))
        → changed (number_given result) image.new ≡ state_entry image.old c }
{
    taken_here(image)?;
    if LAST < number {
        return Err(Refusal::Outside);
    }
    let known = Interrupt::try_from(number)?;
    change(image, known);
    Ok(())
}

pub fn request_interrupt(image: &mut [u8], interrupt: u8) -> Result<(), Refusal>
    ensures { changed (number_given result) image.new ≡ state_entry image.old (RequestInterrupt interrupt) }
{
    on_interrupt(image, interrupt, in_place::interrupts::request_interrupt)
}

pub fn remove_interrupt(image: &mut [u8], interrupt: u8) -> Result<(), Refusal>
    ensures { changed (number_given result) image.new ≡ state_entry image.old (RemoveInterrupt interrupt) }
{
    on_interrupt(image, interrupt, in_place::interrupts::remove_interrupt)
}
