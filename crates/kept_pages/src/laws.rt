//! The laws of the pages that a root keeps, as contracts of functions without code.
ghost use Rattle.kept_pages.specs.CountLaws.{ChangeCounts, FreeCount, RootsCount, StepsCount};

/// At its own place a root has each owner's page, and keeps no other.
pub fn root_count_law<const K: usize>()
    ensures { RootsCount K }
{}

/// A change counts as a lone caller counts it: its owners are rooted no more, and for each that was the root keeps one
/// page more.
pub fn change_count_law<const K: usize>()
    ensures { ChangeCounts K }
{}

/// Sweeps that keep the root's place, claims, and what is given back leave what a lone caller counts as it was.
pub fn step_count_law<const K: usize>()
    ensures { StepsCount K }
{}

/// Boxes, directory parts and the pages that a root keeps are data pages; and after a sweep as many pages are free as a
/// lone caller counts, where the root's place alone is kept and none is claimed.
pub fn free_count_law<const K: usize>()
    ensures { FreeCount K }
{}
