// Calls on the state alone: raw load and store, interrupts, HDMA's flag, the log's clearing. No memory is lent, so only the state's ranges and the call's own
// number can refuse. A call that reads stays a test and a read, two lines: `refusals::on_state` is for those that give a state.
#![tactic(auto, using(refusals::proofs::Answers::exit, refusals::proofs::Answers::refuses), unfolding(refusals::specs::Answers::changed, refusals::specs::Answers::byte_given, refusals::specs::Answers::flag_given, refusals::specs::Answers::waiting_given, refusals::specs::Refusal::or_else))]

ghost use Rattle.std.specs.Prelude.{◌≡◌};
ghost use Rattle.refusals.specs.Answers.{done_of, byte_of, flag_of, waiting_of};
ghost use Rattle.interrupt.specs.Flags.{named};
ghost use Rattle.interrupt.specs.declared.Interrupt.{Interrupt};
ghost use Rattle.memory.specs.declared.Memory.{Memory};
ghost use Rattle.state_calls.specs.State.{on_interrupt, load_call, store_call, get_interrupts_call, hdma_enabled_call, clear_log_call, request_call, remove_call};

use interrupt::Interrupt;
use memory::Memory;
use numbers::Refusal;

// Raw: the page, FF00..FFFF.
pub fn load(memory: Memory, index: u16) -> Result<u8, Refusal>
    ensures { byte_of result ≡ load_call memory index }
{
    refusals::refused(memory)?;
    refusals::raw_refused(index)?;
    Ok(registers::load(memory, (index % 256) as u8))
}

pub fn store(memory: Memory, index: u16, value: u8) -> Result<Memory, Refusal>
    ensures { done_of memory result ≡ store_call memory index value }
{
    refusals::refused(memory)?;
    refusals::raw_refused(index)?;
    Ok(registers::store(memory, (index % 256) as u8, value))
}

pub fn get_interrupts(memory: Memory) -> Result<Option<Interrupt>, Refusal>
    ensures { waiting_of result ≡ get_interrupts_call memory }
{
    refusals::refused(memory)?;
    Ok(registers::interrupts::get_interrupts(memory))
}

// A call on the interrupt of a number: one over 4 is refused by 7, after the state.
fn on_interrupt<F: FnOnce(Memory, Interrupt) -> Memory>(
    memory: Memory,
    number: u8,
    change: F,
) -> Result<Memory, Refusal>
    requires { F.IsAlwaysCallable change }
    ensures { (f : Memory → Interrupt → Memory) → ((m : Memory) (i : Interrupt) (next : Memory) → F.post change m i next → next ≡ f m i)
        → done_of memory result ≡ on_interrupt memory f (named number) }
{
    refusals::refused(memory)?;
    let known = Interrupt::try_from(number)?;
    Ok(change(memory, known))
}

pub fn request_interrupt(memory: Memory, interrupt: u8) -> Result<Memory, Refusal>
    ensures { done_of memory result ≡ request_call memory interrupt }
{
    on_interrupt(memory, interrupt, registers::interrupts::request_interrupt)
}

pub fn remove_interrupt(memory: Memory, interrupt: u8) -> Result<Memory, Refusal>
    ensures { done_of memory result ≡ remove_call memory interrupt }
{
    on_interrupt(memory, interrupt, registers::interrupts::remove_interrupt)
}

pub fn is_hdma_enabled(memory: Memory) -> Result<bool, Refusal>
    ensures { flag_of result ≡ hdma_enabled_call memory }
{
    refusals::refused(memory)?;
    Ok(memory.core.hdma.on)
}

// Clearing sets the log use to 0; the host has copied the used bytes off.
pub fn clear_log(memory: Memory) -> Result<Memory, Refusal>
    ensures { done_of memory result ≡ clear_log_call memory }
{
    refusals::on_state(memory, |memory| memory::with_used(memory, savelog::clear()))
}
