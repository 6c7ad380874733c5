// The C boundary's dispatch: one function over the bus calls, which makes each by its own entry of crate host. Its contract is `entry` (crate
// entry), which lists of C entries fold (crate boundary), and its proof uses nothing of an entry but its contract: so what is shown of such lists is
// shown of the entries, which crate host_c exports to C hosts by a line each (tests/exports).
#![tactic(auto)]

ghost use Rattle.std.specs.Prelude.{[], ◌≡◌};
ghost use Rattle.dispatch.specs.declared.Call.TheVariants.{State};
ghost use Rattle.dispatch.specs.declared.StateCall.TheVariants.{Host};
ghost use Rattle.entry.specs.EntryContracts.{holding, Enters, Changes};
ghost use Rattle.memory.specs.World.{fixed};
ghost use Rattle.enter.specs.Entered.{entered};

use dispatch::{Call, StateCall};
use host::{lent, state};
use lcd::Lcd;

pub mod beside;

// The number, and the value as a number.
#[derive(Clone, Copy)]
pub struct Entered {
    pub number: u8,
    pub value: u16,
}

// An entry that gives no value.
fn of_number(number: u8) -> Entered
    ensures { result ≡ entered number 0 }
{
    Entered { number, value: 0 }
}

fn of_value(number: u8, value: u16) -> Entered
    ensures { result ≡ entered number value }
{
    Entered { number, value }
}

// The eight numbers one by one.
fn enter_host(image: &mut [u8], lcd: Lcd) -> u8
    ensures { Changes image.old (Host lcd) result image.new }
{
    state::pouch_host(
        image,
        lcd.disabled,
        lcd.line,
        lcd.signal,
        lcd.mode,
        lcd.delay,
        lcd.counter,
        lcd.aux,
        lcd.window,
    )
}

// The calls on the state alone: no memory is lent, so that it is `entry` whatever else the host holds.
fn enter_state(image: &mut [u8], call: StateCall) -> Entered
    ensures { Enters (fixed [] []) (holding image.old [] [] [] []) (State call) result.number result.value
        (holding image.new [] [] [] []) }
{
    match call {
        StateCall::Load(i) => {
            let mut value = 0;
            let number = state::pouch_load(image, i, &mut value);
            of_value(number, value)
        }
        StateCall::Store(i, v) => of_number(state::pouch_store(image, i, v)),
        StateCall::SetJoypadState(v) => of_number(state::pouch_set_joypad_state(image, v)),
        StateCall::AreActionKeysEnabled => {
            let mut value = 0;
            let number = state::pouch_are_action_keys_enabled(image, &mut value);
            of_value(number, value)
        }
        StateCall::AreDirectionKeysEnabled => {
            let mut value = 0;
            let number = state::pouch_are_direction_keys_enabled(image, &mut value);
            of_value(number, value)
        }
        StateCall::DoLcdControlWrite(v) => of_number(state::pouch_do_lcd_control_write(image, v)),
        StateCall::DoLcdStatusWrite(v) => of_number(state::pouch_do_lcd_status_write(image, v)),
        StateCall::DoScanlineWrite(v) => of_number(state::pouch_do_scanline_write(image, v)),
        StateCall::DoLycWrite(v) => of_number(state::pouch_do_lyc_write(image, v)),
        StateCall::CompareLyToLyc => of_number(state::pouch_compare_ly_to_lyc(image)),
        StateCall::EnableScreen => of_number(state::pouch_enable_screen(image)),
        StateCall::DisableScreen => of_number(state::pouch_disable_screen(image)),
        StateCall::ResetWindowLine => of_number(state::pouch_reset_window_line(image)),
        StateCall::GetInterrupts => {
            let mut value = 0;
            let number = state::pouch_get_interrupts(image, &mut value);
            of_value(number, value)
        }
        StateCall::RequestInterrupt(n) => of_number(state::pouch_request_interrupt(image, n)),
        StateCall::RemoveInterrupt(n) => of_number(state::pouch_remove_interrupt(image, n)),
        StateCall::IsHdmaEnabled => {
            let mut value = 0;
            let number = state::pouch_is_hdma_enabled(image, &mut value);
            of_value(number, value)
        }
        StateCall::UpdateTimer(c) => of_number(state::pouch_update_timer(image, c)),
        StateCall::Press(b) => of_number(state::pouch_press(image, b)),
        StateCall::Release(b) => of_number(state::pouch_release(image, b)),
        StateCall::UpdateJoypad => of_number(state::pouch_update_joypad(image)),
        StateCall::ClearLog => of_number(state::pouch_clear_log(image)),
        StateCall::Host(lcd) => of_number(enter_host(image, lcd)),
    }
}

// The dispatch.
pub fn enter(
    image: &mut [u8],
    rom: &[u8],
    vram: &mut [u8],
    wram: &mut [u8],
    save: &mut [u8],
    log: &mut [u8],
    sound: &[u8],
    call: Call,
) -> Entered
    ensures { Enters (fixed rom.now sound.now)
        (holding image.old vram.old wram.old save.old log.old)
        call result.number result.value
        (holding image.new vram.new wram.new save.new log.new) }
{
    match call {
        Call::ReadByte(i) => {
            let mut value = 0;
            let number = lent::pouch_read_byte(image, rom, vram, wram, save, sound, i, &mut value);
            of_value(number, u16::from(value))
        }
        Call::ReadWord(i) => {
            let mut value = 0;
            let number = lent::pouch_read_word(image, rom, vram, wram, save, sound, i, &mut value);
            of_value(number, value)
        }
        Call::ReadCgbLcdRam(i, bank) => {
            let mut value = 0;
            let number = lent::pouch_read_cgb_lcd_ram(image, vram, i, bank, &mut value);
            of_value(number, u16::from(value))
        }
        Call::WriteByte(i, v) => of_number(lent::pouch_write_byte(
            image, rom, vram, wram, save, log, sound, i, v,
        )),
        Call::WriteWord(i, v) => of_number(lent::pouch_write_word(
            image, rom, vram, wram, save, log, sound, i, v,
        )),
        Call::DoDmaTransfer(page) => of_number(lent::pouch_do_dma_transfer(
            image, rom, vram, wram, save, log, sound, page,
        )),
        Call::DoHdma => {
            let mut value = 0;
            let number = lent::pouch_do_hdma(image, rom, vram, wram, save, log, sound, &mut value);
            of_value(number, value)
        }
        Call::State(inner) => enter_state(image, inner),
    }
}
