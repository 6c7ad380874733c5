// What is promised of the bus, as contracts: demand 3 over every list of calls, from a fresh bus and from any in range (specs/Promise.antt); what holds of each call (specs/Each.antt, and
// specs/Unchanged.antt of crate dispatch), and that no second outcome fits (specs/One.antt). Nothing here runs: the proofs hand the theorems over, so that to weaken or drop one fails the crate.
#![tactic(auto)]

ghost use Rattle.promise.specs.Promise.{Promise, Begins, Independent, Resumed, Example, WideExample, RoomExample};
ghost use Rattle.dispatch.specs.Unchanged.{RefusedPromise, RefusedFresh, ReadPromise};
ghost use Rattle.promise.specs.Each.{TransferPromise, OutsidePromise};
ghost use Rattle.promise.specs.One.{OneOutcome};

pub fn promise_holds()
    ensures { Promise × Begins × Independent × Resumed × Example × WideExample × RoomExample }
{}

pub fn each_call_holds()
    ensures { RefusedPromise × RefusedFresh × ReadPromise × TransferPromise × OutsidePromise × OneOutcome }
{}
