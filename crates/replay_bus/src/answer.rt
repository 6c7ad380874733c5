// What our calls answer to a line, and the bus that they leave.
use crate::call;
use crate::letter::Letter;
use crate::line::Line;
use bus_host::{digest, host};
use dispatch::Performed;
use lines::answer::{Ours, padded};
use memory::Memory;
use numbers::Refusal;

// The number of a call, as an answer.
fn numbered(number: u8) -> Ours {
    Ok(padded(&[number]))
}

// What a call gave, in one byte or two. Where it was refused that is not an answer.
fn valued(performed: &Performed, gives: usize) -> Ours {
    let [high, low] = performed.value.to_be_bytes();
    if performed.number != numbers::DONE {
        return Err(Refusal::Outside);
    }
    if gives == 2 {
        return Ok(padded(&[high, low]));
    }
    if high != 0 {
        return Err(Refusal::Outside);
    }
    Ok(padded(&[low]))
}

// The two digests.
fn digested(memory: Memory, vram: &[u8], wram: &[u8], save: &[u8], log: &[u8]) -> Ours {
    let [a, b, c, d] = digest::of_state(memory).to_be_bytes();
    let [e, f, g, h] = digest::of_memories(memory, vram, wram, save, log).to_be_bytes();
    Ok(padded(&[a, b, c, d, e, f, g, h]))
}

// A refusal leaves the state that every call refuses.
fn begun(
    memory: &mut Memory,
    line: &Line,
    rom: &[u8],
    vram: &mut [u8],
    wram: &mut [u8],
    save: &mut [u8],
    log: &[u8],
    sound: &mut [u8],
) -> Ours {
    let fresh = host::fresh(line.given, rom, vram, wram, save, log, sound);
    *memory = bus::fresh::state_after(fresh);
    numbered(numbers::number_given(&fresh))
}

fn performed(
    memory: &mut Memory,
    line: &Line,
    rom: &[u8],
    vram: &mut [u8],
    wram: &mut [u8],
    save: &mut [u8],
    log: &mut [u8],
    sound: &[u8],
) -> Ours {
    let named = call::of(line).ok_or(Refusal::Outside)?;
    let done = host::perform(*memory, rom, vram, wram, save, log, sound, named);
    *memory = done.memory;
    if line.letter.gives_value() {
        valued(&done, line.letter.shape().gives)
    } else {
        numbered(done.number)
    }
}

// What is lent stays a parameter each, as in `mmu::write_byte`.
pub fn give(
    memory: &mut Memory,
    line: &Line,
    rom: &[u8],
    vram: &mut [u8],
    wram: &mut [u8],
    save: &mut [u8],
    log: &mut [u8],
    sound: &mut [u8],
) -> Ours {
    match line.letter {
        Letter::Fresh => begun(memory, line, rom, vram, wram, save, log, sound),
        Letter::Hear => {
            host::hear(&line.given, sound);
            numbered(numbers::DONE)
        }
        Letter::Digest => digested(*memory, vram, wram, save, log),
        _ => performed(memory, line, rom, vram, wram, save, log, sound),
    }
}
