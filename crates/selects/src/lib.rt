// What FF4D, FF4F and FF70 of a colour machine keep and select, by value: the bus and the image call it alike.
#![tactic(auto)]

ghost use Rattle.std.specs.Prelude.{◌≡◌};
ghost use Rattle.selects.specs.PanDocs.{speed_of, vram_bank_of, wram_bank_of};

// FF4D: bit 7 stays, bit 0 is armed, the others read 1.
pub fn speed(current: u8, value: u8) -> u8
    ensures { result ≡ speed_of current value }
{
    current / 128 * 128 + value % 2 + 126
}

// The bank of video memory that FF4F selects.
pub fn vram_bank(value: u8) -> u8
    ensures { result ≡ vram_bank_of value }
{
    value % 2
}

// The bank of work memory that FF70 selects: 0 selects 1.
#[tactic(auto, unfolding(crate::specs::PanDocs::wram_bank_of))]
pub fn wram_bank(value: u8) -> u8
    ensures { result ≡ wram_bank_of value }
{
    let bank = value % 8;
    bank.max(1)
}
