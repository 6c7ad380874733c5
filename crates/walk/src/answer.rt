// One line of the walk: the call that it asks for, and the text that answers it.
ghost use Rattle.std.specs.Prelude.{[], ◌≡◌};
ghost use Rattle.commands.specs.Walk.{read_text, update_text, Shows};
ghost use Rattle.memory.specs.World.{world, fixed};
ghost use Rattle.bus.specs.Calls.{read_byte_call};
ghost use Rattle.write_calls.specs.Writes.{write_byte_call};
ghost use Rattle.input_calls.specs.Input.{update_timer_call};
ghost use Rattle.walk.specs.Line.{Answers, written, line_walked};

use commands::command::Command;
use commands::text::Text;
use commands::{command, text};
use memory::Memory;

fn read(
    memory: Memory,
    rom: &[u8],
    vram: &[u8],
    wram: &[u8],
    save: &[u8],
    sound: &[u8],
    index: u16,
) -> Text
    ensures { Shows result (read_text index (read_byte_call (fixed rom.now sound.now)
        (world memory vram.now wram.now save.now []) index).value) }
{
    let given = bus::reads::read_byte(memory, rom, vram, wram, save, sound, index);
    text::read(index, given.unwrap_or(0))
}

fn write(
    memory: &mut Memory,
    rom: &[u8],
    vram: &mut [u8],
    wram: &mut [u8],
    save: &mut [u8],
    log: &mut [u8],
    sound: &[u8],
    index: u16,
    value: u8,
) -> Text
    ensures { Answers result (world memory.new vram.new wram.new save.new log.new)
        (written index (write_byte_call (fixed rom.now sound.now)
        (world memory.old vram.old wram.old save.old log.old)
        index value)) }
{
    let done = write_calls::write_byte(*memory, rom, vram, wram, save, log, sound, index, value);
    let number = numbers::write_number(done.map(|wrote| wrote.owed));
    if let Ok(wrote) = done {
        *memory = wrote.memory;
    }
    text::write(index, number)
}

fn update(memory: &mut Memory, cycles: u32) -> Text
    ensures { Shows result (update_text (update_timer_call memory.old cycles).number) × (memory.new ≡ (update_timer_call memory.old cycles).memory) }
{
    let done = input_calls::update_timer(*memory, cycles);
    let number = numbers::number_given(&done);
    if let Ok(next) = done {
        *memory = next;
    }
    text::update(number)
}

// The line comes without its line end.
#[tactic(auto, unfolding(crate::specs::Line::walked_by))]
pub fn line(
    memory: &mut Memory,
    s: &[u8],
    rom: &[u8],
    vram: &mut [u8],
    wram: &mut [u8],
    save: &mut [u8],
    log: &mut [u8],
    sound: &[u8],
) -> Text
    ensures { Answers result (world memory.new vram.new wram.new save.new log.new)
        (line_walked (fixed rom.now sound.now)
        (world memory.old vram.old wram.old save.old log.old)
        s.now) }
{
    match command::parse(s) {
        Some(Command::Read(index)) => read(*memory, rom, vram, wram, save, sound, index),
        Some(Command::Write(index, value)) => write(
            memory, rom, vram, wram, save, log, sound, index, value,
        ),
        Some(Command::Update(cycles)) => update(memory, cycles),
        None => text::strange(),
    }
}
