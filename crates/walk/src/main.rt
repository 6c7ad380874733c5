// walk: the bus walk. Reads commands from standard input to its end, a line each, makes their calls on one bus, and prints a line for each
// (document 01, "Corners that decide", the last paragraph). It takes no argument, and ends early where its answers cannot be written.
#![tactic(auto)]

ghost use Rattle.std.specs.Prelude.{◌+◌, ◌≤◌, ◌++◌, [], ◌≡◌, length, take, replicate, true, false, cond, is_ok, is_err};
ghost use Rattle.bus.specs.Fresh.{started_by};
ghost use Rattle.commands.specs.Walk.{strange_text, text_of};
ghost use Rattle.lines.specs.Contents.{Filled};
ghost use Rattle.lines.specs.Reader.{Inside, pending, standing};
ghost use Rattle.memory.specs.World.{world, fixed};
ghost use Rattle.walk.specs.declared.Ending.TheVariants as ending;
ghost use Rattle.walk.specs.Line.{rom_byte, walked};
ghost use Rattle.walk.specs.Walk.{after, Begins, one_line, place, is_lost, Stepped, Shown, Ran, Whole};

use commands::bytes::Bytes;
use commands::text;
use lines::pattern;
use lines::reader::{Found, Reader};
use memory::Memory;
use out::{Lost, Out};
use std::env::FillError;
use std::io::{Read, Write};
use std::rt::Env;

mod answer;
mod out;

// The bus, where the reader stands, and whether the line that is read is `long`: it does not fit the buffer, and its first part is dropped.
#[derive(Clone, Copy)]
struct State {
    memory: Memory,
    reader: Reader,
    long: bool,
}

// What ends a walk: its input's end, or answers that are lost.
#[derive(Clone, Copy, PartialEq, Eq)]
enum Ending {
    Input,
    Lost,
}

impl From<Lost> for Ending {
    ghost from_gives = { λ _ e. e ≡ ending.Lost };

    fn from(_: Lost) -> Ending {
        Ending::Lost
    }
}

// Answers a line, without its line end. What is lent stays a parameter each, as in `mmu::write_byte`. The room for a text is a clause of those that
// put one: `shown` makes it and the text takes it up, so no type has it. No line that does not fit the buffer has a known form.
fn line<const N: usize>(
    memory: &mut Memory,
    long: bool,
    s: &[u8],
    out: &mut Bytes<N>,
    rom: &[u8],
    vram: &mut [u8],
    wram: &mut [u8],
    save: &mut [u8],
    log: &mut [u8],
    sound: &[u8],
)
    requires { length (text_of out.old) + 10 ≤ N }
    ensures { walked (text_of out.new) (world memory.new vram.new wram.new save.new log.new)
        ≡ after (text_of out.old)
        (one_line (fixed rom.now sound.now)
        (world memory.old vram.old wram.old save.old log.old)
        long s.now) }
{
    if long {
        out::put(out, &text::strange());
        return;
    }
    let text = answer::line(memory, s, rom, vram, wram, save, log, sound);
    out::put(out, &text);
}

// The input's end: it ends a line that did not fit the buffer.
fn end<const N: usize>(long: bool, out: &mut Bytes<N>)
    requires { length (text_of out.old) + 10 ≤ N }
    ensures { text_of out.new ≡ text_of out.old ++ cond long strange_text [] }
{
    if long {
        out::put(out, &text::strange());
    }
}

// The answers are printed where nothing that was read is left to be answered, so before more is waited for, and where there is no room for a line
// more, of ten bytes. The beginning of a line that waits for its rest holds them back.
fn shown<W: Write, E: Write, const N: usize>(
    output: &mut W,
    errors: &mut E,
    reader: Reader,
    out: &mut Bytes<N>,
) -> Result<(), Lost>
    requires { 10 ≤ N }
    ensures { (length (text_of out.new) + 10 ≤ N)
        × ((text_of out.new ≡ take (length (text_of out.new)) (text_of out.old))
        × Shown reader (length (text_of out.old)) N (length (text_of out.new)) (is_err result)) }
{
    if reader.at < reader.end && 10 <= out.room() {
        return Ok(());
    }
    out::flush(output, errors, out)
}

// One step of the reader, where what was due is written: `Err` where it ends the walk. Answers that are lost end it: nobody hears them, so no more
// is read.
fn step<R: Read, W: Write, const N: usize>(
    input: &mut R,
    output: &mut W,
    written: Result<(), Lost>,
    state: &mut State,
    buf: &mut [u8],
    out: &mut Bytes<N>,
    rom: &[u8],
    vram: &mut [u8],
    wram: &mut [u8],
    save: &mut [u8],
    log: &mut [u8],
    sound: &[u8],
) -> Result<(), Ending>
    requires { Inside (length buf.old) state.old.reader × ((length (text_of out.old) + 10 ≤ N) × (13 ≤ length buf.old)) }
    ensures { Inside (length buf.new) state.new.reader
        × Stepped (fixed rom.now sound.now) (is_err written)
        (place (world state.old.memory vram.old wram.old save.old log.old)
        (text_of out.old) state.old.long (pending buf.old state.old.reader) state.old.reader.more)
        buf.new (is_ok result) (is_lost result)
        (place (world state.new.memory vram.new wram.new save.new log.new)
        (text_of out.new) state.new.long (pending buf.new state.new.reader) state.new.reader.more) }
{
    written?;
    match state.reader.next(input, output, buf) {
        Found::Line { from, to } => {
            line(
                &mut state.memory,
                state.long,
                &buf[from..to],
                out,
                rom,
                vram,
                wram,
                save,
                log,
                sound,
            );
            state.long = false;
            Ok(())
        }
        Found::Long => {
            state.long = true;
            Ok(())
        }
        Found::Read => Ok(()),
        Found::End => {
            end(state.long, out);
            state.long = false;
            Err(Ending::Input)
        }
    }
}

// Step after step. A proved loop has to end: its turns are more than any run uses up.
fn run<R: Read, W: Write, E: Write, const N: usize>(
    input: &mut R,
    output: &mut W,
    errors: &mut E,
    state: &mut State,
    buf: &mut [u8],
    out: &mut Bytes<N>,
    rom: &[u8],
    vram: &mut [u8],
    wram: &mut [u8],
    save: &mut [u8],
    log: &mut [u8],
    sound: &[u8],
) -> Result<(), Ending>
    requires { Inside (length buf.old) state.old.reader × ((13 ≤ length buf.old) × (10 ≤ N)) }
    ensures { Ran (fixed rom.now sound.now)
        (place (world state.old.memory vram.old wram.old save.old log.old)
        (text_of out.old) state.old.long (pending buf.old state.old.reader) state.old.reader.more)
        (is_ok result) (is_lost result)
        (place (world state.new.memory vram.new wram.new save.new log.new)
        (text_of out.new) state.new.long (pending buf.new state.new.reader) state.new.reader.more) }
{
    for _ in 0..u64::MAX {
        let written = shown(output, errors, state.reader, out);
        step(
            input, output, written, state, buf, out, rom, vram, wram, save, log, sound,
        )?;
    }
    Ok(())
}

// All of the input.
fn walk<R: Read, W: Write, E: Write>(
    input: &mut R,
    output: &mut W,
    errors: &mut E,
    memory: &mut Memory,
    rom: &[u8],
    vram: &mut [u8],
    wram: &mut [u8],
    save: &mut [u8],
    log: &mut [u8],
    sound: &[u8],
) -> Result<(), Ending>
    requires { Begins (fixed rom.now sound.now) (world memory.old vram.old wram.old save.old log.old) }
    ensures { is_ok result ≡ false → is_lost result ≡ false → Whole (fixed rom.now sound.now)
        (world memory.old vram.old wram.old save.old log.old)
        (world memory.new vram.new wram.new save.new log.new) }
{
    let mut buf = [0; 65536];
    let mut out = Out::new();
    let mut state = State {
        memory: *memory,
        reader: Reader::new(),
        long: false,
    };
    let ended = run(
        input, output, errors, &mut state, &mut buf, &mut out, rom, vram, wram, save, log, sound,
    );
    let _ = out::flush(output, errors, &mut out);
    *memory = state.memory;
    ended
}

fn rom_byte(a: usize) -> u8
    ensures { result ≡ rom_byte a }
{
    (a % 256) as u8
}

fn fill_rom(rom: &mut [u8])
    ensures { Filled rom_byte rom.new (length rom.new) }
{
    pattern::fill(rom, rom_byte);
}

// The fresh bus: Mbc1, N 2, RAM code 2, monochrome. It is not refused.
fn begin(
    rom: &[u8],
    vram: &mut [u8],
    wram: &mut [u8],
    save: &[u8],
    log: &[u8],
    sound: &[u8],
) -> Memory
    requires { (length rom.now ≡ 32768) × ((length vram.old ≡ 8192) × ((length wram.old ≡ 8192)
        × ((length save.now ≡ 8192) × ((length log.now ≡ 4095) × (length sound.now ≡ 48))))) }
    ensures { (result ≡ started_by 1 2 2 false) × ((vram.new ≡ replicate 8192 0) × (wram.new ≡ replicate 8192 0)) }
{
    let start = bus::fresh::fresh(1, 2, 2, false, rom, vram, wram, save, log, sound);
    bus::fresh::state_after(start)
}

fn usage<E: Write>(errors: &mut E) {
    let _ = errors.write_all(
        b"usage: walk <LINES, where a line is R index, W index value or T cycles\n",
    );
}

// Whether there is an argument, be it empty or no text.
fn is_argued<A: Env>(rt: &A) -> bool {
    let mut first = [0u8; 1];
    !matches!(rt.arg(1, &mut first), Err(FillError::NotPresent))
}

fn main(rt: HostRuntime) {
    if is_argued(&rt) {
        usage(&mut rt.stderr());
        return;
    }
    let mut rom = [0; 32768];
    fill_rom(&mut rom);
    let mut vram = [0; 8192];
    let mut wram = [0; 8192];
    let mut save = [0; 8192];
    let mut log = [0; 4095];
    let sound = [0; 48];
    let mut memory = begin(&rom, &mut vram, &mut wram, &save, &log, &sound);
    let _ = walk(
        &mut rt.stdin(),
        &mut rt.stdout(),
        &mut rt.stderr(),
        &mut memory,
        &rom,
        &mut vram,
        &mut wram,
        &mut save,
        &mut log,
        &sound,
    );
}
