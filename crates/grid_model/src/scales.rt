//! The laws of scales and cells.
ghost use Rattle.grid_model.specs.ScaleLaws.{PartsNumbers, HaveIndices};

/// The law of scales: the boundaries part the numbers into intervals, and a fresh boundary cuts
/// one interval in two.
pub fn scale_law()
    ensures { PartsNumbers }
{}

/// The law of cells: each index of the directory has one cell, a key's cell is among those of a
/// region that has the key, and a refined directory keeps each key's cell as an image.
pub fn cell_law<const K: usize>()
    ensures { HaveIndices K }
{}
