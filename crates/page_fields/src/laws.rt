//! The laws of the definitions, as contracts of functions without code.
ghost use Rattle.page_fields.specs.Laws.{AreNumbers};

/// The law of numbers in bytes: what was spelled is read, and each field has its length.
pub fn number_law()
    ensures { AreNumbers }
{}
