// What `recover` shows of a save: the rows that changed, in hex and to be heard. All of it is put into buffers that the caller lends; specs/ says which bytes.
#![tactic(auto)]

pub mod parts;
pub mod put;
pub mod rows;
pub mod speak;
