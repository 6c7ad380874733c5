// The registers of the page, once: every byte write asks it what FF00 + at is.
ghost use Rattle.std.specs.Prelude.{◌≡◌};
ghost use Rattle.registers.specs.Register.{register_of, byte_as};

#[derive(Clone, Copy)]
pub enum Register {
    // FF10..FF3F: a write there is the host's.
    Sound,
    // FF40, FF41, FF44, FF45.
    Control,
    Status,
    Line,
    Compare,
    // FF4D, FF4F.
    Speed,
    VramBank,
    // FF51..FF55.
    SourceHigh,
    SourceLow,
    DestinationHigh,
    DestinationLow,
    Start,
    // FF68..FF6B.
    BackgroundIndex,
    BackgroundData,
    SpriteIndex,
    SpriteData,
    // FF70.
    WramBank,
    // All else: a byte is stored.
    Byte,
}

#[tactic(auto, unfolding(crate::specs::Register::register_of))]
pub fn register_of(at: u8) -> Register
    ensures { result ≡ register_of at }
{
    if at < 0x10 {
        return Register::Byte;
    }
    if at < 0x40 {
        return Register::Sound;
    }
    match at {
        0x40 => Register::Control,
        0x41 => Register::Status,
        0x44 => Register::Line,
        0x45 => Register::Compare,
        0x4D => Register::Speed,
        0x4F => Register::VramBank,
        0x51 => Register::SourceHigh,
        0x52 => Register::SourceLow,
        0x53 => Register::DestinationHigh,
        0x54 => Register::DestinationLow,
        0x55 => Register::Start,
        0x68 => Register::BackgroundIndex,
        0x69 => Register::BackgroundData,
        0x6A => Register::SpriteIndex,
        0x6B => Register::SpriteData,
        0x70 => Register::WramBank,
        _ => Register::Byte,
    }
}

// What a write of a byte that is stored stores.
#[tactic(auto, unfolding(crate::specs::Register::byte_as))]
pub fn byte_as(at: u8, value: u8) -> u8
    ensures { result ≡ byte_as at value }
{
    match at {
        0x04 => 0,
        0x0F => value % 32,
        0x6C => value | 0xFE,
        0x75 => value | 0x8F,
        0xFF => value % 32,
        _ => value,
    }
}
