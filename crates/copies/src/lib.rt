// The bytes that a transfer copies, by value: OAM DMA's, and where a general transfer's end. The bus and the image call it alike.
#![tactic(auto)]

ghost use Rattle.std.specs.Prelude.{◌≡◌, ◌≤◌, ◌+◌};
ghost use Rattle.copies.specs.PanDocs.{vram_end};
ghost use Rattle.copies.specs.Copies.{nothing, oam_copy, landed, Bounded};

// Which registers a copy sets at its end.
#[derive(Clone, Copy, Debug, PartialEq, Eq)]
pub enum Finish {
    Nothing,
    Block,
    General,
}

// `count` bytes from `source` on, each to the next place from `destination` on. Where it may write, `Bounded`, is a clause and no ghost field: the definitions
// here and of the registers make such records from what Pan Docs say, for any number, and each would carry a proof.
#[derive(Clone, Copy, Debug, PartialEq, Eq)]
pub struct Copy {
    pub source: u16,
    pub destination: u16,
    pub count: u16,
    pub finish: Finish,
}

// A copy of no bytes, and no `None`: the definitions `nothing` and `oam_copy`, which clauses of public calls cite, are copies.
pub fn no_copy() -> Copy
    ensures { (result ≡ nothing) × Bounded result }
{
    Copy {
        source: 0,
        destination: 0,
        count: 0,
        finish: Finish::Nothing,
    }
}

// OAM DMA: pages 00..DF copy 160 bytes, the others none. (The Rust's also leaves out 00..7F.)
#[tactic(auto, unfolding(crate::specs::Copies::oam_copy))]
pub fn oam_copy(page: u8) -> Copy
    ensures { (result ≡ oam_copy page) × Bounded result }
{
    match page {
        0x00..=0xDF => Copy {
            source: page as u16 * 256,
            destination: 0xFE00,
            count: 160,
            finish: Finish::Nothing,
        },
        _ => no_copy(),
    }
}

// Bytes of a general transfer that land: none past 9FFF.
pub fn landing(destination: u16, length: u16) -> u16
    requires { destination ≤ vram_end }
    ensures { (result ≡ landed destination length) × (destination + result ≤ vram_end) }
{
    let room = 0xA000 - destination;
    length.min(room)
}
