// replay_bus: reads lists of calls on a whole bus with the Rust's answers from standard input (oracle/README.md, "The whole bus"), makes each call
// through our public calls, each on what the last one left, and counts for each letter the answers and those that differ. What it
// prints is the verdict.
#![tactic(auto)]

use letter::Letter;
use lines::answer::same;
use lines::pattern;
use lines::reader::{Found, Reader};
use lines::tally::Tally;
use memory::Memory;
use std::io;
use std::io::{Read, Write};

mod answer;
mod call;
mod letter;
mod line;

// The bus, its log's length, and what is counted.
#[derive(Clone, Copy)]
struct State {
    memory: Memory,
    room: u16,
    tally: Tally,
}

// Makes the call of one line, without its line end, and compares its answer. A line of no known form makes none, and is counted as such.
fn step(
    state: &mut State,
    s: &[u8],
    rom: &[u8],
    vram: &mut [u8],
    wram: &mut [u8],
    save: &mut [u8],
    log: &mut [u8],
    sound: &mut [u8],
) {
    let (Some(name), Some(line)) = (s.first(), line::of(s)) else {
        state.tally = state.tally.strange();
        return;
    };
    // A fresh bus brings its log's length.
    if line.letter == Letter::Fresh {
        state.room = u16::from_be_bytes([line.given[4], line.given[5]]);
    }
    let n = usize::from(state.room).min(log.len());
    let ours = answer::give(
        &mut state.memory,
        &line,
        rom,
        vram,
        wram,
        save,
        &mut log[..n],
        sound,
    );
    let same = same(ours, line.answer, line.letter.shape().gives);
    state.tally = state.tally.counted(*name, same);
}

// Counts all of the input. Before the first fresh bus the state is the one that every call refuses. A proved loop has to end: its turns are more
// than any run uses up. Why replay has the same loop: crates/replay/src/main.rt.
fn replay<R: Read, W: Write>(
    input: &mut R,
    output: &mut W,
    rom: &[u8],
    vram: &mut [u8],
    wram: &mut [u8],
    save: &mut [u8],
    log: &mut [u8],
    sound: &mut [u8],
) -> Tally {
    let mut buf = [0; 65536];
    let mut reader = Reader::new();
    let mut state = State {
        memory: memory::zero(),
        room: 0,
        tally: Tally::new(),
    };
    for _ in 0..u64::MAX {
        match reader.next(input, output, &mut buf) {
            Found::Line { from, to } => {
                step(
                    &mut state,
                    &buf[from..to],
                    rom,
                    vram,
                    wram,
                    save,
                    log,
                    sound,
                );
            }
            Found::Long => state.tally = state.tally.strange(),
            Found::Read => {}
            Found::End => break,
        }
    }
    state.tally
}

// With the other memories: as many bytes as the largest bus of a list has, and the longest log.
fn run<R: Read, W: Write>(input: &mut R, output: &mut W, rom: &[u8]) -> io::Result<()> {
    let mut vram = [0; 16384];
    let mut wram = [0; 32768];
    let mut save = [0; savelog::SAVE_LIMIT];
    let mut log = [0; savelog::LOG_LIMIT];
    let mut sound = [0; 48];
    let tally = replay(
        input, output, rom, &mut vram, &mut wram, &mut save, &mut log, &mut sound,
    );
    tally.report(output, &letter::NAMES)
}

fn main(rt: HostRuntime) -> io::Result<()> {
    let mut rom = vec![in rt.alloc(); 0; pattern::ROM_LEN]?;
    pattern::fill_rom(&mut rom);
    run(&mut rt.stdin(), &mut rt.stdout(), &rom)
}
