//! The laws of what data pages hold, as contracts of functions without code.
ghost use Rattle.layout_pages.specs.HoldingLaws.{ChangeHolds, CopyHolds, NamedApart, NamedStay, OpeningHolds, RenewsOwners, StepsHold};

/// The law of opening: the pages that the newest root names are current at its front, and hold its layout and its table.
pub fn opening_law<const K: usize>()
    ensures { OpeningHolds K }
{}

/// The law of changes: the owners that a change renews are those that the model says, in the order in which their pages
/// are written; and once these are on the disk, its publication leaves pages that hold the layout and the table after it.
pub fn change_law<const K: usize>()
    ensures owners { RenewsOwners K }
    ensures holds { ChangeHolds K }
{}

/// The law of steps: sweeps, claims and what is given back leave what pages hold at the front.
pub fn step_law<const K: usize>()
    ensures { StepsHold K }
{}

/// The law of named pages: those that a table area names stay current at a place that is kept, and none of them is freed,
/// free or claimed.
pub fn named_law()
    ensures stay { NamedStay }
    ensures apart { NamedApart }
{}

/// The law of copies: a table area that tells the current pages names those that hold the layout and the table, and these
/// are current at the front.
pub fn copy_law<const K: usize>()
    ensures { CopyHolds K }
{}
