// What Pan Docs define and the Rust follows, as theorems: each definition of specs/ is written from Pan Docs' words, by bits and by rows of first
// and last address, and the theorem is that the definitions which the contracts of the crates below cite give just that. Nothing here runs: the
// proof hands the theorems over, so that to weaken or drop one fails the crate.
#![tactic(auto)]

ghost use Rattle.pan_docs.specs.PanDocs.{PanDocs};

pub fn pan_docs_hold()
    ensures { PanDocs }
{}
