//! The laws of the spelling, as the contract of a function without code.
ghost use Rattle.directory_pages.specs.Laws.{SpellsOnePart};

/// The law of directory pages: a page spells the cells of one part at most.
pub fn spelling_law()
    ensures { SpellsOnePart }
{}
