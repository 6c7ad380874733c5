// Demand 3 at the C boundary, as a contract: what a host holds after any list of entries (specs/Boundary.antt). Nothing here runs.
#![tactic(auto)]

ghost use Rattle.boundary.specs.Boundary.{EntryRuns, EntryPromise, EntryBegins, EntryResumed};
ghost use Rattle.boundary.specs.Told.{Told};

pub fn boundary_holds()
    ensures { EntryRuns × EntryPromise × EntryBegins × EntryResumed }
{}

// That the contracts of the calls that are lent nothing for writing let one answer through (specs/Told.antt).
pub fn answers_told()
    ensures { Told }
{}
