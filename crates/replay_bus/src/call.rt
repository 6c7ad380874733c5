// The call that a letter and its input name.
ghost use Rattle.std.specs.Prelude.{◌≤◌};

use crate::letter::Letter;
use crate::line::Line;
use dispatch::{Call, StateCall};
use lcd::Lcd;
use lines::line::flag;

// The signed number of four bytes.
fn signed_at(given: &[u8; 54], at: usize) -> i32
    requires { at ≤ 48 }
{
    i32::from_be_bytes([given[at], given[at + 1], given[at + 2], given[at + 3]])
}

// The host's eight numbers. The first is a flag.
fn host(given: &[u8; 54]) -> Option<Lcd> {
    let [disabled, line, signal, mode, ..] = *given;
    Some(lcd::host(
        flag(disabled).ok()?,
        line,
        signal,
        mode,
        signed_at(given, 4),
        signed_at(given, 8),
        signed_at(given, 12),
        signed_at(given, 16),
    ))
}

// None where the host's flag is none, and for the letters that name no call.
pub fn of(line: &Line) -> Option<Call> {
    let [a, b, c, d, ..] = line.given;
    let index = u16::from_be_bytes([a, b]);
    let call = match line.letter {
        Letter::Fresh | Letter::Hear | Letter::Digest => return None,
        Letter::ReadByte => return Some(Call::ReadByte(index)),
        Letter::ReadWord => return Some(Call::ReadWord(index)),
        Letter::ReadCgbLcdRam => return Some(Call::ReadCgbLcdRam(index, c)),
        Letter::WriteByte => return Some(Call::WriteByte(index, c)),
        Letter::WriteWord => return Some(Call::WriteWord(index, u16::from_be_bytes([c, d]))),
        Letter::DoDmaTransfer => return Some(Call::DoDmaTransfer(a)),
        Letter::DoHdma => return Some(Call::DoHdma),
        Letter::UpdateTimer => StateCall::UpdateTimer(u32::from_be_bytes([a, b, c, d])),
        Letter::Load => StateCall::Load(index),
        Letter::Store => StateCall::Store(index, c),
        Letter::Press => StateCall::Press(a),
        Letter::Release => StateCall::Release(a),
        Letter::UpdateJoypad => StateCall::UpdateJoypad,
        Letter::SetJoypadState => StateCall::SetJoypadState(a),
        Letter::AreActionKeysEnabled => StateCall::AreActionKeysEnabled,
        Letter::AreDirectionKeysEnabled => StateCall::AreDirectionKeysEnabled,
        Letter::IsHdmaEnabled => StateCall::IsHdmaEnabled,
        Letter::GetInterrupts => StateCall::GetInterrupts,
        Letter::RequestInterrupt => StateCall::RequestInterrupt(a),
        Letter::RemoveInterrupt => StateCall::RemoveInterrupt(a),
        Letter::DoLcdControlWrite => StateCall::DoLcdControlWrite(a),
        Letter::DoLcdStatusWrite => StateCall::DoLcdStatusWrite(a),
        Letter::DoScanlineWrite => StateCall::DoScanlineWrite(a),
        Letter::DoLycWrite => StateCall::DoLycWrite(a),
        Letter::CompareLyToLyc => StateCall::CompareLyToLyc,
        Letter::EnableScreen => StateCall::EnableScreen,
        Letter::DisableScreen => StateCall::DisableScreen,
        Letter::ResetWindowLine => StateCall::ResetWindowLine,
        Letter::Host => StateCall::Host(host(&line.given)?),
        Letter::ClearLog => StateCall::ClearLog,
    };
    Some(Call::State(call))
}
