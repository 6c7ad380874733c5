// What the programs share: the lines of standard input and digits. And for those that replay the Rust's recorded answers (oracle/README.md):
// the bytes of a line, the answer that is compared, the counts and their report, the contents of ROM and save.
#![tactic(auto)]

pub mod answer;
pub mod line;
pub mod pattern;
pub mod reader;
pub mod tally;
