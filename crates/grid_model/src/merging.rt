//! The laws of merges.
ghost use Rattle.grid_model.specs.LayoutLaws.{JoinsRegions, MergesTwo};

/// The law of merges: the hull of two regions that together are a box has the keys of both and no other, and a lawful
/// merge leaves both boxes under the lower number, none under the higher one, and all others as they were.
pub fn merge_law<const K: usize>()
    ensures hull { JoinsRegions K }
    ensures merge { MergesTwo K }
{}
