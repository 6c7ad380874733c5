// The registers FF51..FF55 and the addresses of the colour transfers, as the Rust's mmu/mod.rs: the writes of FF51..FF54, `do_cgb_dma`, and what
// `do_hdma` and `do_gdma` do beside the copying, which the bus does. Leans on bit_utils.
#![tactic(auto)]

ghost use Rattle.std.specs.Prelude.{◌≡◌, ◌*◌, ◌/◌, ◌%◌, ◌<◌, ◌≤◌};
ghost use Rattle.hdma.specs.PanDocs as pan_docs;
ghost use Rattle.hdma.specs.PanDocs.{length_of};
ghost use Rattle.hdma.specs.Hdma.{switched, kept_below, first_block, shown_in, fallen, still_on, source_high, source_low, destination_high, destination_low};
ghost use Rattle.hdma.specs.Hdma.{starts, source_used, destination_used, stepped, block_ended, general_ended, start_of};

// Whether an HBlank transfer runs, and the two addresses, which the registers do not always show.
#[derive(Clone, Copy, Debug, PartialEq, Eq)]
pub struct Hdma {
    pub on: bool,
    pub source: u16,
    pub destination: u16,
}

// A register's write: the addresses after it, and the byte that the page stores.
#[derive(Clone, Copy, Debug, PartialEq, Eq)]
pub struct Written {
    pub hdma: Hdma,
    pub byte: u8,
}

// What a write of FF55 does: it sets HDMA and the page's byte, and may have a block copied at once; or all is copied at once, and set at the end.
#[derive(Clone, Copy, Debug, PartialEq, Eq)]
pub enum Start {
    Set(Written),
    Block(Written),
    General,
}

// After a transfer: the addresses, and FF51..FF55.
#[derive(Clone, Copy, Debug, PartialEq, Eq)]
pub struct Ended {
    pub hdma: Hdma,
    pub r51: u8,
    pub r52: u8,
    pub r53: u8,
    pub r54: u8,
    pub r55: u8,
}

// Bits 7..4 of a byte stay: the mask F0.
fn upper(value: u8) -> u8
    ensures { result ≡ value / 16 * 16 }
{
    value / 16 * 16
}

// A source's high byte from 80 to below the limit becomes 0.
#[tactic(auto, unfolding(crate::specs::Hdma::kept_below))]
fn kept_below(limit: u8, high: u8) -> u8
    ensures { result ≡ kept_below limit high }
{
    if 0x80 <= high && high < limit {
        return 0;
    }
    high
}

// A source by its high and low byte, the low 4 bits ignored.
#[tactic(auto, using(crate::proofs::Laws::upper_bits))]
fn source_at(high: u8, low: u8) -> u16
    ensures { result ≡ pan_docs.source_of high low }
{
    high as u16 * 256 + upper(low) as u16
}

// A destination by its high and low byte: in video memory, of the address only bits 12..4.
fn destination_at(high: u8, low: u8) -> u16
    ensures { result ≡ pan_docs.destination_of high low }
{
    0x8000 + source_at(high % 32, low)
}

// FF51. The four registers of an address are a function each: which address, which half of it, what the page stores and which definition says it differ, so
// one function of all would match on the register for each of them.
#[tactic(auto, unfolding(crate::specs::Hdma::source_high))]
pub fn write_source_high(h: Hdma, value: u8) -> Written
    ensures { result ≡ source_high h value }
{
    let byte = kept_below(0xC0, value);
    Written {
        hdma: Hdma {
            source: source_at(byte, (h.source % 256) as u8),
            ..h
        },
        byte,
    }
}

// FF52.
#[tactic(auto, unfolding(crate::specs::Hdma::source_low))]
pub fn write_source_low(h: Hdma, value: u8) -> Written
    ensures { result ≡ source_low h value }
{
    Written {
        hdma: Hdma {
            source: source_at((h.source / 256) as u8, value),
            ..h
        },
        byte: upper(value),
    }
}

// FF53.
#[tactic(auto, unfolding(crate::specs::Hdma::destination_high))]
pub fn write_destination_high(h: Hdma, value: u8) -> Written
    ensures { result ≡ destination_high h value }
{
    Written {
        hdma: Hdma {
            destination: destination_at(value, (h.destination % 256) as u8),
            ..h
        },
        byte: value % 32,
    }
}

// FF54.
#[tactic(auto, unfolding(crate::specs::Hdma::destination_low))]
pub fn write_destination_low(h: Hdma, value: u8) -> Written
    ensures { result ≡ destination_low h value }
{
    Written {
        hdma: Hdma {
            destination: destination_at((h.destination / 256) as u8, value),
            ..h
        },
        byte: upper(value),
    }
}

// HDMA on or off, and what FF55 then holds.
fn switch(h: Hdma, on: bool, byte: u8) -> Written
    ensures { result ≡ switched h on byte }
{
    Written {
        hdma: Hdma { on, ..h },
        byte,
    }
}

// HDMA that begins in LCD mode 0 copies its first block at once.
#[tactic(auto, unfolding(crate::specs::Hdma::first_block))]
fn first_block(mode: u8, written: Written) -> Start
    ensures { result ≡ first_block mode written }
{
    if mode == 0 {
        return Start::Block(written);
    }
    Start::Set(written)
}

// FF55, in LCD mode `mode`.
#[tactic(auto, unfolding(crate::specs::Hdma::starts))]
pub fn do_cgb_dma(h: Hdma, mode: u8, value: u8) -> Start
    ensures { result ≡ starts h mode value }
{
    let hblank = bit_utils::within::is_set(value, 7);
    match (h.on, hblank) {
        (true, true) => Start::Set(switch(h, true, value % 128)),
        (true, false) => Start::Set(switch(h, false, 0xFF)),
        (false, true) => first_block(mode, switch(h, true, value % 128)),
        (false, false) => Start::General,
    }
}

// The bytes that a general transfer copies.
pub fn length(value: u8) -> u16
    ensures { result ≡ length_of value }
{
    16 + (value % 128) as u16 * 16
}

// Where a transfer's bytes come from.
#[tactic(auto, unfolding(crate::specs::Hdma::source_used))]
pub fn source_of(h: Hdma) -> u16
    ensures { result ≡ source_used h }
{
    h.source / 16 * 16
}

// Where a transfer's first byte lands: a block of 16 from there stays in 8000..9FFF.
#[tactic(auto, unfolding(crate::specs::Hdma::destination_used))]
pub fn destination_of(h: Hdma) -> u16
    ensures { (result ≡ destination_used h) × (result % 16 ≡ 0) × (0x8000 ≤ result) × (result ≤ 0x9FF0) }
{
    0x8000 + h.destination / 16 % 512 * 16
}

// An address after a block: up 16, and the edge becomes `past`.
#[tactic(auto, unfolding(crate::specs::Hdma::stepped))]
fn step(edge: u16, past: u16, address: u16) -> u16
    ensures { result ≡ stepped edge past address }
{
    let next = address.wrapping_add(16);
    if next == edge {
        return past;
    }
    next
}

// FF51..FF54 show the addresses.
fn shown(h: Hdma, r55: u8) -> Ended
    ensures { result ≡ shown_in h r55 }
{
    Ended {
        hdma: h,
        r51: (h.source / 256) as u8,
        r52: (h.source % 256) as u8,
        r53: (h.destination / 256) as u8,
        r54: (h.destination % 256) as u8,
        r55,
    }
}

// FF55 falls by 1 with each block.
fn fall(byte: u8) -> u8
    ensures { result ≡ fallen byte }
{
    byte.wrapping_sub(1)
}

// FF in FF55 switches HDMA off.
#[tactic(auto, unfolding(crate::specs::Hdma::still_on))]
fn still_on(on: bool, left: u8) -> bool
    ensures { result ≡ still_on on left }
{
    on && left != 0xFF
}

// `do_hdma` after its bytes; FF55 holds `r55`.
#[tactic(auto, unfolding(crate::specs::Hdma::block_ended))]
pub fn end_block(h: Hdma, r55: u8) -> Ended
    ensures { result ≡ block_ended h r55 }
{
    let destination = step(0xA000, 0x8000, h.destination);
    let source = step(0x8000, 0xA000, h.source);
    let left = fall(r55);
    let on = still_on(h.on, left);
    shown(
        Hdma {
            on,
            source,
            destination,
        },
        left,
    )
}

// `do_gdma` after its bytes, of which `value` says the length.
#[tactic(auto, unfolding(crate::specs::Hdma::general_ended))]
pub fn end_general(h: Hdma, value: u8) -> Ended
    ensures { result ≡ general_ended h value }
{
    let n = length(value);
    let source = h.source.wrapping_add(n);
    let destination = h.destination.wrapping_add(n);
    Ended {
        hdma: Hdma {
            source,
            destination,
            ..h
        },
        r51: 0xFF,
        r52: 0xFF,
        r53: 0xFF,
        r54: 0xFF,
        r55: 0xFF,
    }
}

// The fresh colour state, from the bytes FF51..FF54 of its start page.
#[tactic(auto, unfolding(crate::specs::Hdma::start_of))]
pub fn start_of(r51: u8, r52: u8, r53: u8, r54: u8) -> Hdma
    ensures { result ≡ start_of r51 r52 r53 r54 }
{
    Hdma {
        on: false,
        source: source_at(kept_below(0xA0, r51), r52),
        destination: destination_at(r53, r54),
    }
}
