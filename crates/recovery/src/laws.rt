//! The law of surveys, as the contract of a function without code.
ghost use Rattle.recovery.specs.Laws.{HasOneAnswer, CountsUpdates};

/// The law of surveys: an image is found to be what it is, or has one first fault, and not both; and the place that a survey
/// reaches is the root's front and one more for each update that is taken.
pub fn survey_law<const K: usize>()
    ensures answer { HasOneAnswer K }
    ensures place { CountsUpdates K }
{}
