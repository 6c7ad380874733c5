// The archive that C hosts link: each entry of crate host under its exported name, with the same clauses.
#![tactic(auto)]

pub mod convert;
pub mod lent;
pub mod mapper;
pub mod screen;
pub mod state;
pub mod version;
