//! The laws of layouts.
ghost use Rattle.grid_model.specs.LayoutLaws.{PartsRegion, IsLeastUnused, KeepsSound};

/// The law of a cut: it parts a region at its boundary, the left part has the region's keys below the boundary, and the right part the others.
pub fn region_law<const K: usize>()
    ensures parts { PartsRegion K }
{}

/// The law of a new bucket's number: no box has it, each lower number is a box's, and it is at most the number of boxes.
pub fn unused_law<const K: usize>()
    ensures { IsLeastUnused K }
{}

/// The law of layouts: a new file's layout is sound, and a lawful note keeps a layout sound for the table after its update.
pub fn layout_law<const K: usize>()
    ensures { KeepsSound K }
{}
