// Document 01's starred corners, as one table with one theorem about the public calls' definitions, and what is promised beside them.
#![tactic(auto)]

ghost use Rattle.mbc.specs.Mbc.{OneField};
ghost use Rattle.corners.specs.Table.{Corners};
ghost use Rattle.corners.specs.Laws.{ZeroRefused, FreshAccepted, CodeFour, Buttons};
ghost use Rattle.corners.specs.Transfers.{TransferLeaves, InBank, Sprites};

// The theorem of specs/Table.antt, the laws of specs/Laws.antt and that of Mbc5's bank (crate mbc), as a contract: its proof hands them over.
pub fn corners_hold()
    ensures { Corners × ZeroRefused × FreshAccepted × CodeFour × Buttons × OneField }
{}

// What the transfers leave (specs/Transfers.antt).
pub fn transfers_hold()
    ensures { TransferLeaves × InBank × Sprites }
{}
