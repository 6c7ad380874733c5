// The transfers of the bus on an image and what is lent, block by block: the bytes of a block are read before one is written, and the registers are put into
// the image. crates/mmu copies byte by byte; proofs/Copies.antt has that both are the same. What is lent stays a parameter each, as in
// `mmu::write_byte`; that it fits (`Own`) is a clause: C lends slices of any length, which the calls refuse.
#![tactic(auto)]

mod blocks;
mod moves;
mod rows;
mod starts;

pub use moves::{move_block, move_oam};
pub use starts::start;
