// replay: reads lines of the Rust's answers from standard input (oracle/README.md, "The parts"), gives the input of each to our public calls, and
// counts for each letter the answers and those that differ. What it prints is the verdict.
#![tactic(auto)]

use letter::Letter;
use lines::answer::same;
use lines::line::parse;
use lines::pattern;
use lines::reader::{Found, Reader};
use lines::tally::Tally;
use std::io;
use std::io::{Read, Write};

mod answer;
mod letter;
mod mapper;

// Counts one line, without its line end.
fn count(tally: Tally, s: &[u8], rom: &[u8], save: &[u8]) -> Tally {
    let Some(first) = s.first() else {
        return tally.strange();
    };
    let Ok(letter) = Letter::try_from(*first) else {
        return tally.strange();
    };
    let mut given = [0; 12];
    let mut answer = [0; 12];
    let shape = letter.shape();
    if !parse(s, shape, &mut given, &mut answer) {
        return tally.strange();
    }
    let ours = answer::give(letter, &given, rom, save);
    tally.counted(*first, same(ours, answer, shape.gives))
}

// Counts all of the input. A proved loop has to end: its turns are more than any run uses up. The loop stands in both replays: what a file gives is in no contract,
// so a public loop over a closure could promise it the lines of some input alone, which a loop that reads nothing does too. `next` says by `Finds` what a turn gives.
fn replay<R: Read, W: Write>(input: &mut R, output: &mut W, rom: &[u8], save: &[u8]) -> Tally {
    let mut buf = [0; 65536];
    let mut reader = Reader::new();
    let mut tally = Tally::new();
    for _ in 0..u64::MAX {
        tally = match reader.next(input, output, &mut buf) {
            Found::Line { from, to } => count(tally, &buf[from..to], rom, save),
            Found::Long => tally.strange(),
            Found::Read => tally,
            Found::End => break,
        };
    }
    tally
}

// With the largest save.
fn run<R: Read, W: Write>(input: &mut R, output: &mut W, rom: &[u8]) -> io::Result<()> {
    let mut save = [0; pattern::SAVE_LEN];
    pattern::fill_save(&mut save);
    let tally = replay(input, output, rom, &save);
    tally.report(output, &letter::NAMES)
}

fn main(rt: HostRuntime) -> io::Result<()> {
    let mut rom = vec![in rt.alloc(); 0; pattern::ROM_LEN]?;
    pattern::fill_rom(&mut rom);
    run(&mut rt.stdin(), &mut rt.stdout(), &rom)
}
