// FF46 and FF51..FF55: the registers of the transfers, which transfer a write starts, and how the registers end. The bytes are copied by the crate mmu.
#![tactic(auto, unfolding(crate::specs::Transfers::source_high_put, crate::specs::Transfers::source_low_put, crate::specs::Transfers::destination_high_put, crate::specs::Transfers::destination_low_put, crate::specs::Transfers::started, crate::specs::Transfers::finished))]

ghost use Rattle.std.specs.Prelude.{◌≡◌, ◌-◌};
ghost use Rattle.copies.specs.Copies.{Bounded};
ghost use Rattle.memory.specs.Region.{page_start};
ghost use Rattle.hdma.specs.declared.Written.{Written};
ghost use Rattle.registers.specs.Colour.{in_colour};
ghost use Rattle.registers.specs.Page.{write_register};
ghost use Rattle.registers.specs.Transfers.{transfer_put, source_high_put, source_low_put, destination_high_put, destination_low_put, start_put, with_ended, block_copy, general_copy, started_by, started, copy_of, finished};

use crate::{load, store};
use copies::{Copy, Finish, no_copy};
use hdma::{Ended, Hdma, Start, Written};
use memory::Memory;

// A write that starts a transfer: the state before any byte is copied, and what is copied.
#[derive(Clone, Copy)]
pub struct Started {
    pub memory: Memory,
    pub copy: Copy,
}

// The hidden addresses, and a byte of the page.
fn put_written(memory: Memory, at: u8, written: Written) -> Memory
    ensures { result ≡ transfer_put memory at written }
{
    let mut next = store(memory, at, written.byte);
    next.core.hdma = written.hdma;
    next
}

// A write of an address's byte: monochrome just stores it.
fn write_address<F: FnOnce(Hdma, u8) -> Written>(
    memory: Memory,
    at: u8,
    value: u8,
    write: F,
) -> Memory
    requires { F.IsAlwaysCallable write }
    ensures { (w : Written) → ((r : Written) → F.post write memory.core.hdma value r → r ≡ w)
        → result ≡ in_colour memory at value (transfer_put memory at w) }
{
    if memory.core.banks.colour {
        put_written(memory, at, write(memory.core.hdma, value))
    } else {
        store(memory, at, value)
    }
}

// FF51.
pub fn write_source_high(memory: Memory, value: u8) -> Memory
    ensures { result ≡ source_high_put memory value }
{
    write_address(memory, 0x51, value, hdma::write_source_high)
}

// FF52.
pub fn write_source_low(memory: Memory, value: u8) -> Memory
    ensures { result ≡ source_low_put memory value }
{
    write_address(memory, 0x52, value, hdma::write_source_low)
}

// FF53.
pub fn write_destination_high(memory: Memory, value: u8) -> Memory
    ensures { result ≡ destination_high_put memory value }
{
    write_address(memory, 0x53, value, hdma::write_destination_high)
}

// FF54.
pub fn write_destination_low(memory: Memory, value: u8) -> Memory
    ensures { result ≡ destination_low_put memory value }
{
    write_address(memory, 0x54, value, hdma::write_destination_low)
}

fn with_ended(mut memory: Memory, ended: Ended) -> Memory
    ensures { result ≡ with_ended memory ended }
{
    memory.page[0x51] = ended.r51;
    memory.page[0x52] = ended.r52;
    memory.page[0x53] = ended.r53;
    memory.page[0x54] = ended.r54;
    memory.page[0x55] = ended.r55;
    memory.core.hdma = ended.hdma;
    memory
}

// An HDMA block: 16 bytes. From a multiple of 16 below A000 it stays there.
// `Bounded` of a copy is a clause and no invariant of its type: the definitions make records of Copy from the documents, and each would carry a proof in specs/.
pub fn block_copy(memory: Memory) -> Copy
    ensures { (result ≡ block_copy memory) × Bounded result }
{
    let hdma = memory.core.hdma;
    Copy {
        source: hdma::source_of(hdma),
        destination: hdma::destination_of(hdma),
        count: 16,
        finish: Finish::Block,
    }
}

// A general transfer.
fn general_copy(memory: Memory, value: u8) -> Copy
    ensures { (result ≡ general_copy memory value) × Bounded result }
{
    let hdma = memory.core.hdma;
    let destination = hdma::destination_of(hdma);
    let count = copies::landing(destination, hdma::length(value));
    Copy {
        source: hdma::source_of(hdma),
        destination,
        count,
        finish: Finish::General,
    }
}

// What `hdma` decided of FF55. A general transfer sets the registers at its end.
fn started_by(memory: Memory, value: u8, start: Start) -> Started
    ensures { (result ≡ started_by memory value start) × Bounded result.copy }
{
    match start {
        Start::Set(written) => Started {
            memory: put_written(memory, 0x55, written),
            copy: no_copy(),
        },
        Start::Block(written) => Started {
            memory: put_written(memory, 0x55, written),
            copy: block_copy(memory),
        },
        Start::General => Started {
            memory,
            copy: general_copy(memory, value),
        },
    }
}

// FF55: the Rust's `do_cgb_dma`.
pub fn do_cgb_dma(memory: Memory, value: u8) -> Started
    ensures { (result ≡ started memory value) × Bounded result.copy }
{
    if memory.core.banks.colour {
        let start = hdma::do_cgb_dma(memory.core.hdma, memory.core.lcd.mode, value);
        started_by(memory, value, start)
    } else {
        Started {
            memory: store(memory, 0x55, value),
            copy: no_copy(),
        }
    }
}

// FF55 before any byte is copied.
pub fn write_start(memory: Memory, value: u8) -> Memory
    ensures { result ≡ start_put memory value }
{
    do_cgb_dma(memory, value).memory
}

// FF46 and FF55, the writes that start a transfer.
pub fn start_transfer(memory: Memory, index: u16, value: u8) -> Started
    requires { (index ≡ 0xFF46 → ⊥) → index ≡ 0xFF55 }
    ensures { ((result.memory ≡ write_register memory (index - page_start) value) × (result.copy ≡ copy_of memory index value)) × Bounded result.copy }
{
    if index == 0xFF46 {
        Started {
            memory: store(memory, 0x46, value),
            copy: copies::oam_copy(value),
        }
    } else {
        do_cgb_dma(memory, value)
    }
}

// The registers after a copy's last byte.
pub fn end_copy(memory: Memory, kind: Finish, value: u8) -> Memory
    ensures { result ≡ finished memory kind value }
{
    let hdma = memory.core.hdma;
    match kind {
        Finish::Nothing => memory,
        Finish::Block => with_ended(memory, hdma::end_block(hdma, load(memory, 0x55))),
        Finish::General => with_ended(memory, hdma::end_general(hdma, value)),
    }
}
