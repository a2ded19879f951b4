//! The laws of the least, and of where a full bucket is cut.
ghost use Rattle.grid_model.specs.CutLaws.{HasLeast, CutsBest};

/// The law of the least: the least of some items is one of them, and none ranks below it.
pub fn least_law<X>()
    ensures { HasLeast X }
{}

/// The law of cuts: a cut is at the best existing boundary, else at the best value of the first
/// attribute in turn that has one, and there is none only where there is neither.
pub fn cut_law<const K: usize>()
    ensures { CutsBest K }
{}
