// One enum of the bus calls, and one dispatch over it: whatever is shown of `step` over a list of calls is shown of this code.
#![tactic(auto)]

ghost use Rattle.std.specs.Prelude.{◌≡◌, MatchResult};
ghost use Rattle.memory.specs.World.{world, fixed};
ghost use Rattle.numbers.specs.Refusal.{number_given, refusal_number};
ghost use Rattle.refusals.specs.Answers.{done_of};
ghost use Rattle.bus.specs.Calls.{buffers};
ghost use Rattle.dispatch.specs.Step.{Performs, OnePerformed, state_step, performed, performed_done, performed_wrote, performed_moved, pending_number};

use bus::reads;
use interrupt::Interrupt;
use lcd::Lcd;
use memory::Memory;
use numbers::Refusal;
use transfer_calls::Moved;
use write_calls::Wrote;

// The calls on the state alone, named after the Rust's functions.
#[derive(Clone, Copy)]
pub enum StateCall {
    Load(u16),
    Store(u16, u8),
    SetJoypadState(u8),
    AreActionKeysEnabled,
    AreDirectionKeysEnabled,
    DoLcdControlWrite(u8),
    DoLcdStatusWrite(u8),
    DoScanlineWrite(u8),
    DoLycWrite(u8),
    CompareLyToLyc,
    EnableScreen,
    DisableScreen,
    ResetWindowLine,
    GetInterrupts,
    RequestInterrupt(u8),
    RemoveInterrupt(u8),
    IsHdmaEnabled,
    UpdateTimer(u32),
    Press(u8),
    Release(u8),
    UpdateJoypad,
    ClearLog,
    Host(Lcd),
}

// All bus calls: those to which memories are lent, and those on the state alone.
#[derive(Clone, Copy)]
pub enum Call {
    ReadByte(u16),
    ReadWord(u16),
    ReadCgbLcdRam(u16, u8),
    WriteByte(u16, u8),
    WriteWord(u16, u16),
    DoDmaTransfer(u8),
    DoHdma,
    State(StateCall),
}

// The number, the value as a number, and the state after the call: what document 01 gives of each call, and `Performs` (specs/Step.antt) speaks of.
#[derive(Clone, Copy)]
pub struct Performed {
    pub number: u8,
    pub value: u16,
    pub memory: Memory,
}

// A refused call gives 0 and leaves the state as it was.
fn of_refused(memory: Memory, refusal: Refusal) -> Performed
    ensures { result ≡ performed (refusal_number refusal) 0 memory }
{
    Performed {
        number: refusal.number(),
        value: 0,
        memory,
    }
}

// A call that reads: its value as a number, and the state as it was.
fn of_read<T: Into<u16>>(memory: Memory, read: Result<T, Refusal>) -> Performed
    ensures number { result.number ≡ number_given read }
    ensures value { MatchResult read (λ x. T.converts x result.value) (λ _. result.value ≡ 0) }
    ensures state { result.memory ≡ memory }
{
    match read {
        Ok(value) => Performed {
            number: numbers::DONE,
            value: value.into(),
            memory,
        },
        Err(refusal) => of_refused(memory, refusal),
    }
}

// A call that changes the state: what it answers shown by `shown`.
fn of_answer<T, F: FnOnce(T) -> Performed>(
    memory: Memory,
    answer: Result<T, Refusal>,
    shown: F,
) -> Performed
    requires { F.IsAlwaysCallable shown }
    ensures { MatchResult answer (λ x. F.post shown x result) (λ e. result ≡ performed (refusal_number e) 0 memory) }
{
    match answer {
        Ok(value) => shown(value),
        Err(refusal) => of_refused(memory, refusal),
    }
}

// A call that gives no value.
fn of_done(memory: Memory, done: Result<Memory, Refusal>) -> Performed
    ensures { result ≡ performed_done (done_of memory done) }
{
    of_answer(
        memory,
        done,
        |next| Performed {
            number: numbers::DONE,
            value: 0,
            memory: next,
        },
    )
}

fn of_wrote(memory: Memory, wrote: Result<Wrote, Refusal>) -> Performed
    ensures { result ≡ performed_wrote memory wrote }
{
    of_answer(
        memory,
        wrote,
        |done| Performed {
            number: done.owed.number(),
            value: 0,
            memory: done.memory,
        },
    )
}

fn of_moved(memory: Memory, moved: Result<Moved, Refusal>) -> Performed
    ensures { result ≡ performed_moved memory moved }
{
    of_answer(
        memory,
        moved,
        |done| Performed {
            number: numbers::DONE,
            value: done.cycles as u16,
            memory: done.memory,
        },
    )
}

// The interrupt's bit; 5 for none.
pub fn pending_number(pending: Option<Interrupt>) -> u16
    ensures { result ≡ pending_number pending }
{
    match pending {
        Some(interrupt) => interrupt::bit(interrupt) as u16,
        None => 5,
    }
}

// The calls on the state alone, one by one.
#[tactic(auto, unfolding(crate::specs::Step::state_step))]
pub fn perform_state(memory: Memory, call: StateCall) -> Performed
    ensures { result ≡ state_step memory call }
{
    match call {
        StateCall::Load(i) => of_read(memory, state_calls::load(memory, i)),
        StateCall::Store(i, v) => of_done(memory, state_calls::store(memory, i, v)),
        StateCall::SetJoypadState(v) => of_done(memory, input_calls::set_joypad_state(memory, v)),
        StateCall::AreActionKeysEnabled => of_read(
            memory,
            input_calls::are_action_keys_enabled(memory),
        ),
        StateCall::AreDirectionKeysEnabled => of_read(
            memory,
            input_calls::are_direction_keys_enabled(memory),
        ),
        StateCall::DoLcdControlWrite(v) => of_done(
            memory,
            screen_calls::do_lcd_control_write(memory, v),
        ),
        StateCall::DoLcdStatusWrite(v) => of_done(
            memory,
            screen_calls::do_lcd_status_write(memory, v),
        ),
        StateCall::DoScanlineWrite(v) => of_done(
            memory,
            screen_calls::do_scanline_write(memory, v),
        ),
        StateCall::DoLycWrite(v) => of_done(memory, screen_calls::do_lyc_write(memory, v)),
        StateCall::CompareLyToLyc => of_done(memory, screen_calls::compare_ly_to_lyc(memory)),
        StateCall::EnableScreen => of_done(memory, screen_calls::enable_screen(memory)),
        StateCall::DisableScreen => of_done(memory, screen_calls::disable_screen(memory)),
        StateCall::ResetWindowLine => of_done(memory, screen_calls::reset_window_line(memory)),
        StateCall::GetInterrupts => of_read(
            memory,
            state_calls::get_interrupts(memory).map(pending_number),
        ),
        StateCall::RequestInterrupt(n) => of_done(
            memory,
            state_calls::request_interrupt(memory, n),
        ),
        StateCall::RemoveInterrupt(n) => of_done(memory, state_calls::remove_interrupt(memory, n)),
        StateCall::IsHdmaEnabled => of_read(memory, state_calls::is_hdma_enabled(memory)),
        StateCall::UpdateTimer(c) => of_done(memory, input_calls::update_timer(memory, c)),
        StateCall::Press(b) => of_done(memory, input_calls::press(memory, b)),
        StateCall::Release(b) => of_done(memory, input_calls::release(memory, b)),
        StateCall::UpdateJoypad => of_done(memory, input_calls::update_joypad(memory)),
        StateCall::ClearLog => of_done(memory, state_calls::clear_log(memory)),
        StateCall::Host(lcd) => of_done(memory, screen_calls::host(memory, lcd)),
    }
}

// The dispatch. What is lent stays a parameter each, as in `mmu::write_byte`.
#[tactic(auto, unfolding(crate::specs::Step::step))]
pub fn perform(
    memory: Memory,
    rom: &[u8],
    vram: &mut [u8],
    wram: &mut [u8],
    save: &mut [u8],
    log: &mut [u8],
    sound: &[u8],
    call: Call,
) -> Performed
    ensures { Performs (fixed rom.now sound.now)
        (world memory vram.old wram.old save.old log.old) call result
        (buffers vram.new wram.new save.new log.new) }
{
    match call {
        Call::ReadByte(i) => of_read(
            memory,
            reads::read_byte(memory, rom, vram, wram, save, sound, i),
        ),
        Call::ReadWord(i) => of_read(
            memory,
            reads::read_word(memory, rom, vram, wram, save, sound, i),
        ),
        Call::ReadCgbLcdRam(i, bank) => of_read(
            memory,
            reads::read_cgb_lcd_ram(memory, vram, i, bank),
        ),
        Call::WriteByte(i, v) => of_wrote(
            memory,
            write_calls::write_byte(memory, rom, vram, wram, save, log, sound, i, v),
        ),
        Call::WriteWord(i, v) => of_wrote(
            memory,
            write_calls::write_word(memory, rom, vram, wram, save, log, sound, i, v),
        ),
        Call::DoDmaTransfer(page) => of_done(
            memory,
            transfer_calls::do_dma_transfer(memory, rom, vram, wram, save, log, sound, page),
        ),
        Call::DoHdma => of_moved(
            memory,
            transfer_calls::do_hdma(memory, rom, vram, wram, save, log, sound),
        ),
        Call::State(inner) => perform_state(memory, inner),
    }
}

// That no second outcome fits this contract, as a contract: its proof hands it over.
pub fn one_performed()
    ensures { OnePerformed }
{}
