//! The laws of redo, as contracts of functions without code.
ghost use Rattle.file_redo.specs.RedoLaws.{ClaimsCount, RedoBegins, RedoEnds, RedoGoesOn, RedoLeads, RedoMayGoOn, RedoPageSteps, RootedIsAlone, SyncSettles};

use disk_trait::Disk;

/// The law of redo: at a root that is found nothing is redone yet; and while updates are redone, all leads to the file's
/// standing, and free and claimed pages may be written.
pub fn redo_law<const K: usize>()
    ensures begins { RedoBegins K }
    ensures leads { RedoLeads K }
{}

/// The law of pages while a file is opened: sweeps, claims and what is given back leave what is redone.
pub fn redo_page_law<const K: usize>()
    ensures { RedoPageSteps K }
{}

/// The law of claims: how many pages are claimed after each step of the redo, so that none is between two updates.
pub fn redo_claim_law<const K: usize>()
    ensures { ClaimsCount K }
{}

/// The law of the next update: it may be redone, and is when its new pages are published.
pub fn redo_update_law<const K: usize>()
    ensures may { RedoMayGoOn K }
    ensures goes_on { RedoGoesOn K }
{}

/// The law of a file that was opened again: when all is redone, it stands where its root led; and once a new root stands at
/// its front and no slot is used, it is a lone caller's.
pub fn reopened_law<const K: usize>()
    ensures ends { RedoEnds K }
    ensures alone { RootedIsAlone K }
{}

/// The law of what was redone: once a disk is synced, all that its data pages read as is on it for good.
pub fn redo_synced_law<const K: usize, D: Disk>()
    ensures { SyncSettles K D.Disk }
{}
