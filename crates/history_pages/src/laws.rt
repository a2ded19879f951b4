//! The laws of the pages of owners, as contracts of functions without code.
ghost use Rattle.history_pages.specs.HistoryLaws.{KeepsContents, MakesLayouts};
ghost use Rattle.history_pages.specs.HoldingLaws.{CarriesOn, StaysHeld};
ghost use Rattle.history_pages.specs.PageLaws.{KeepsPages};
ghost use Rattle.history_pages.specs.SpellingLaws.{SpellsLayout};

/// The law of pages: exactly the owners of a layout have one, and a change leaves the page of each owner that it does not
/// drop.
pub fn page_law<const K: usize>()
    ensures { KeepsPages K }
{}

/// The law of spellings: the pages of owners spell the layout and the table, and an image's pages do exactly where it has
/// each owner's page.
pub fn spelling_law<const K: usize>()
    ensures { SpellsLayout K }
{}

/// The law of contents: what comes later in a history changes no layout and no content at an earlier place, and one more
/// entry changes the content of those owners alone that it drops.
pub fn content_law<const K: usize>()
    ensures layouts { MakesLayouts K }
    ensures contents { KeepsContents K }
{}

/// The law of what is held: a change stays held past each other change that passes by it, and where it is held it is
/// a change as it was where it was planned, with the same new pages.
pub fn holding_law<const K: usize>()
    ensures stays { StaysHeld K }
    ensures carries { CarriesOn K }
{}
