// The C boundary: every public call on a state image and lent memories, answering a number. What an entry does, crate entry says, and each contract
// here is one that has a name there (specs/EntryContracts.antt); the crates quick_reads, quick_writes, quick_state and quick_screen do it on the image
// itself. None has a `requires`. A slice is a pointer and its length, in the order of the parameters.
#![tactic(auto)]

mod answers;
pub mod convert;
pub mod lent;
pub mod mapper;
pub mod screen;
pub mod state;
pub mod version;
