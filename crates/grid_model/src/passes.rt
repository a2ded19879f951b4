//! The laws of passes and of callers' numbers.
ghost use Rattle.grid_model.specs.PassLaws.{KeepsPasses, RenamesCallers};

/// The law of passes: forks, entries and joins keep each pass's number its own, below the number of passes made.
pub fn pass_law<const K: usize>()
    ensures { KeepsPasses K }
{}

/// The law of callers' numbers: a history whose callers have other numbers has the same tables, layouts and answers.
pub fn renaming_law<const K: usize>()
    ensures { RenamesCallers K }
{}
