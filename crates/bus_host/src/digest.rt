// The digests of state and memories, for the letter Z: oracle/README.md, "The whole bus", has what goes in, and in which order.
ghost use Rattle.std.specs.Prelude.{◌≡◌, ◌++◌, length};
ghost use Rattle.memory.specs.World.{world};
ghost use Rattle.bus_host.specs.Host.{lengths_in, lent_parts};
ghost use Rattle.bus_host.specs.Digest.{mixed, digest, color_bytes, word_bytes, signed_bytes, log_bytes, memory_bytes};

use crate::host::{Lengths, lengths_in};
use lcd::Lcd;
use mbc::Registers;
use memory::Memory;
use palette::Color;

fn of_byte(h: u32, byte: u8) -> u32
    ensures { result ≡ mixed h byte }
{
    ((h as u64 * 257 + byte as u64 + 1) % 4294967291) as u32
}

#[tactic(auto, using(crate::proofs::Digests::digest_fold))]
fn of_bytes(h: u32, bytes: &[u8]) -> u32
    ensures { result ≡ digest h bytes.now }
{
    bytes.iter().fold(h, |h, byte| of_byte(h, *byte))
}

fn of_colors(h: u32, colors: &[Color; 32]) -> u32 {
    colors
        .iter()
        .fold(h, |h, c| of_bytes(h, &[c.red, c.green, c.blue]))
}

// A number of two bytes, the high one first.
fn of_word(h: u32, word: u16) -> u32
    ensures { result ≡ digest h (word_bytes word) }
{
    of_bytes(h, &word.to_be_bytes())
}

// A signed number of four bytes, as its two's complement.
fn of_signed(h: u32, number: i32) -> u32 {
    of_bytes(h, &number.to_be_bytes())
}

fn of_tables(h: u32, memory: &Memory) -> u32 {
    let h = of_bytes(h, &memory.oam);
    let h = of_bytes(h, &memory.page);
    let h = of_colors(h, &memory.background);
    of_colors(h, &memory.sprites)
}

// What is one byte.
fn of_small(h: u32, memory: &Memory) -> u32 {
    let core = memory.core;
    let banks = core.banks;
    let lcd = core.lcd;
    let hdma = core.hdma;
    let pad = core.joypad;
    let bytes = [
        u8::from(banks.colour),
        u8::from(lcd.disabled),
        u8::from(hdma.on),
        banks.vram,
        banks.wram,
        u8::from(pad.action),
        u8::from(pad.direction),
        pad.state,
        pad.released,
        lcd.line,
        lcd.signal,
        lcd.mode,
        core.clock.div,
    ];
    of_bytes(h, &bytes)
}

fn of_words(h: u32, memory: &Memory) -> u32 {
    let clock = memory.core.clock;
    let hdma = memory.core.hdma;
    let h = of_word(h, clock.tima);
    let h = of_word(h, hdma.source);
    of_word(h, hdma.destination)
}

fn of_cycles(h: u32, lcd: Lcd) -> u32 {
    let h = of_signed(h, lcd.delay);
    let h = of_signed(h, lcd.counter);
    let h = of_signed(h, lcd.aux);
    of_signed(h, lcd.window)
}

fn of_mapper(h: u32, memory: &Memory) -> u32 {
    let core = memory.core;
    let cartridge = core.cartridge;
    let held = Registers::from(core.mapper);
    let h = of_bytes(h, &[held.kind]);
    let h = of_word(h, cartridge.banks);
    let h = of_bytes(h, &[cartridge.code]);
    let h = of_word(h, held.rom);
    of_bytes(h, &[held.ram, held.mode, held.enabled, held.high])
}

pub fn of_state(memory: Memory) -> u32 {
    let h = of_tables(0, &memory);
    let h = of_small(h, &memory);
    let h = of_words(h, &memory);
    let h = of_cycles(h, memory.core.lcd);
    of_mapper(h, &memory)
}

// The bytes of the log that are used, after their number.
fn of_log(h: u32, used: u16, log: &[u8]) -> u32
    ensures { result ≡ digest h (log_bytes used log.now) }
{
    let n = usize::from(used).min(log.len());
    of_bytes(of_word(h, used), &log[..n])
}

// Of video memory, work memory and save the parts that are lent.
pub fn of_memories(memory: Memory, vram: &[u8], wram: &[u8], save: &[u8], log: &[u8]) -> u32
    ensures { result ≡ digest 0 (memory_bytes (lent_parts (lengths_in memory 0 (length vram.now) (length wram.now) (length save.now)) (world memory vram.now wram.now save.now log.now))) }
{
    let there = Lengths::of(&[], vram, wram, save);
    let n = lengths_in(memory, there);
    let h = of_bytes(0, &vram[..n.vram]);
    let h = of_bytes(h, &wram[..n.wram]);
    let h = of_bytes(h, &save[..n.save]);
    of_log(h, memory.core.used, log)
}
