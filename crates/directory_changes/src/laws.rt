//! The law of the definitions, as the contract of a function without code.
ghost use Rattle.directory_changes.specs.Laws.{RenewsParts};

/// The law of directory changes: the parts that the directory's change renews are those that the layout's change does.
pub fn directory_law<const K: usize>()
    ensures { RenewsParts K }
{}
