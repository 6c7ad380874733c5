// The lines of the bus walk: what a line asks for, and the line that answers it. Document 01, "Corners that decide", its last paragraph.
#![tactic(auto)]

pub mod bytes;
pub mod command;
pub mod text;
