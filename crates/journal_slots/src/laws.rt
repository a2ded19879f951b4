//! The laws of the definitions, each as the contract of a function without code.
ghost use Rattle.journal_slots.specs.Laws.{SpellsOneBatch, CommitsWholeOrNot, CommitsNothingElse};

/// The law of slot pages: a page spells one batch at most.
pub fn spelling_law<const K: usize>()
    ensures { SpellsOneBatch K }
{}

/// The law of a commit: what follows from its step for each image that a crash may leave in it.
pub fn committing_law<const K: usize>()
    ensures whole { CommitsWholeOrNot K }
    ensures elsewhere { CommitsNothingElse K }
{}
