//! The law of what is found in an image, as the contract of a function without code.
ghost use Rattle.file_finding.specs.Finding.{StandingFinds};

/// The law of findings: an image that stands for a table at a place shows something that is kept, with what is found in
/// it, and that leads to where the image stands.
pub fn finding_law<const K: usize>()
    ensures { StandingFinds K }
{}
