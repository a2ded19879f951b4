//! The law of the lone caller.
ghost use Rattle.grid_model.specs.LoneLaws.{IsLegalAlone};

/// The law of the lone caller: its answers are legal in the history that it makes, each request leaves a sound file, and
/// the free pages are those that neither a box nor a directory part nor the root has.
pub fn lone_law<const K: usize>()
    ensures { IsLegalAlone K }
{}
