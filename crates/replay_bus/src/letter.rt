// The letters, and how many bytes each takes and gives: oracle/README.md, "The whole bus".
ghost use Rattle.std.specs.Prelude.{◌≤◌};

use lines::line::Shape;
use numbers::Refusal;

// A fresh bus, the sound window, the digests, and the calls by their names.
#[derive(Clone, Copy, PartialEq, Eq)]
pub enum Letter {
    Fresh,
    Hear,
    Digest,
    ReadByte,
    ReadWord,
    ReadCgbLcdRam,
    WriteByte,
    WriteWord,
    DoDmaTransfer,
    DoHdma,
    UpdateTimer,
    Load,
    Store,
    Press,
    Release,
    UpdateJoypad,
    SetJoypadState,
    AreActionKeysEnabled,
    AreDirectionKeysEnabled,
    IsHdmaEnabled,
    GetInterrupts,
    RequestInterrupt,
    RemoveInterrupt,
    DoLcdControlWrite,
    DoLcdStatusWrite,
    DoScanlineWrite,
    DoLycWrite,
    CompareLyToLyc,
    EnableScreen,
    DisableScreen,
    ResetWindowLine,
    Host,
    ClearLog,
}

// The letters in the order of the report. Y has no answer, and none is reported.
pub const NAMES: [u8; 32] = *b"NRMWVTPLUJAEDHiIQXOSBabcdefghjkZ";

impl TryFrom<u8> for Letter {
    type Error = Refusal;

    fn try_from(byte: u8) -> Result<Self, Refusal> {
        match byte {
            b'N' => Ok(Letter::Fresh),
            b'Y' => Ok(Letter::Hear),
            b'Z' => Ok(Letter::Digest),
            b'R' => Ok(Letter::ReadByte),
            b'M' => Ok(Letter::ReadWord),
            b'B' => Ok(Letter::ReadCgbLcdRam),
            b'W' => Ok(Letter::WriteByte),
            b'V' => Ok(Letter::WriteWord),
            b'D' => Ok(Letter::DoDmaTransfer),
            b'H' => Ok(Letter::DoHdma),
            b'T' => Ok(Letter::UpdateTimer),
            b'O' => Ok(Letter::Load),
            b'S' => Ok(Letter::Store),
            b'P' => Ok(Letter::Press),
            b'L' => Ok(Letter::Release),
            b'U' => Ok(Letter::UpdateJoypad),
            b'J' => Ok(Letter::SetJoypadState),
            b'A' => Ok(Letter::AreActionKeysEnabled),
            b'E' => Ok(Letter::AreDirectionKeysEnabled),
            b'i' => Ok(Letter::IsHdmaEnabled),
            b'I' => Ok(Letter::GetInterrupts),
            b'Q' => Ok(Letter::RequestInterrupt),
            b'X' => Ok(Letter::RemoveInterrupt),
            b'a' => Ok(Letter::DoLcdControlWrite),
            b'b' => Ok(Letter::DoLcdStatusWrite),
            b'c' => Ok(Letter::DoScanlineWrite),
            b'd' => Ok(Letter::DoLycWrite),
            b'e' => Ok(Letter::CompareLyToLyc),
            b'f' => Ok(Letter::EnableScreen),
            b'g' => Ok(Letter::DisableScreen),
            b'h' => Ok(Letter::ResetWindowLine),
            b'j' => Ok(Letter::Host),
            b'k' => Ok(Letter::ClearLog),
            _ => Err(Refusal::Outside),
        }
    }
}

impl Letter {
    pub fn shape(self) -> Shape
        ensures { (result.takes ≤ 54) × (result.gives ≤ 8) }
    {
        let (takes, gives) = match self {
            Letter::Fresh => (54, 1),
            Letter::Hear => (48, 0),
            Letter::Digest => (0, 8),
            Letter::Host => (20, 1),
            Letter::WriteWord | Letter::UpdateTimer => (4, 1),
            Letter::WriteByte | Letter::Store | Letter::ReadCgbLcdRam => (3, 1),
            Letter::ReadWord => (2, 2),
            Letter::ReadByte | Letter::Load => (2, 1),
            Letter::Press
            | Letter::Release
            | Letter::SetJoypadState
            | Letter::DoDmaTransfer
            | Letter::RequestInterrupt
            | Letter::RemoveInterrupt
            | Letter::DoLcdControlWrite
            | Letter::DoLcdStatusWrite
            | Letter::DoScanlineWrite
            | Letter::DoLycWrite => (1, 1),
            Letter::UpdateJoypad
            | Letter::AreActionKeysEnabled
            | Letter::AreDirectionKeysEnabled
            | Letter::DoHdma
            | Letter::IsHdmaEnabled
            | Letter::GetInterrupts
            | Letter::CompareLyToLyc
            | Letter::EnableScreen
            | Letter::DisableScreen
            | Letter::ResetWindowLine
            | Letter::ClearLog => (0, 1),
        };
        Shape { takes, gives }
    }

    // Whether the answer is what the call gives; else it is the call's number.
    pub fn gives_value(self) -> bool {
        matches!(
            self,
            Letter::ReadByte
                | Letter::ReadWord
                | Letter::ReadCgbLcdRam
                | Letter::Load
                | Letter::AreActionKeysEnabled
                | Letter::AreDirectionKeysEnabled
                | Letter::DoHdma
                | Letter::IsHdmaEnabled
                | Letter::GetInterrupts
        )
    }
}
