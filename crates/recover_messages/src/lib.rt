// What `recover` decides of a journal and says of files: what a journal begins with, how much of it was written, which record is damaged, and every
// message. A message is put into a buffer that the caller lends; the program prints it. specs/ says which bytes.
#![tactic(auto)]

pub mod journal;
pub mod mark;
pub mod message;
