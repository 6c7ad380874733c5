// A host for the replay of whole-bus lists (oracle/README.md, "The whole bus"): it lends the memories to each call, and digests state and memories.
#![tactic(auto)]

pub mod digest;
pub mod host;
