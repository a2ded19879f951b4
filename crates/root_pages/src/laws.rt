//! The laws of the spellings, as the contract of a function without code.
ghost use Rattle.grid_types.specs.declared.sizes.TheConstants.{NUMBERS_ON_PAGE, WORDS_ON_PAGE};
ghost use Rattle.grid_model.specs.Spellings.{scale_spelling, list_spelling, bucket_table_spelling};
ghost use Rattle.root_pages.specs.Laws.{SpellsOneShape, SpellsOneRoot, SpellsOneList};

/// The laws of header pages and table areas: no bytes spell two shapes or two roots, and no page spells two lists of
/// boundaries or of data pages.
pub fn spelling_law()
    ensures shapes { SpellsOneShape }
    ensures roots { SpellsOneRoot }
    ensures scales { SpellsOneList scale_spelling NUMBERS_ON_PAGE 64 }
    ensures lists { SpellsOneList list_spelling WORDS_ON_PAGE 32 }
    ensures tables { SpellsOneList bucket_table_spelling WORDS_ON_PAGE 32 }
{}
