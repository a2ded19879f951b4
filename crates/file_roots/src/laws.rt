//! Laws of roots, each as the contract of a function without code.
ghost use Rattle.file_roots.specs.Damage.{AreAllSpelled, OneIsDamaged};
ghost use Rattle.file_roots.specs.Uniqueness.{HasOneShape, HasOneNewest, HasOneArea, HasOneWhole};
ghost use Rattle.file_roots.specs.Replacing.{NextMayBeWritten, OldOrTriedIsNewest, KeptIsOlder, NewestIsAmong};

/// The law of table areas: all pages of one are spelled, taken page by page, exactly where the area is.
pub fn area_law()
    ensures { AreAllSpelled }
{}

/// The law of damage: where the roots of a file are damaged, one page is named.
pub fn damage_law()
    ensures { OneIsDamaged }
{}

/// The laws of replacing: where the old root is the newest, or there is none, the next may be written; where one may be
/// written, the old one or the one that was tried is the newest, and the other header page is older; and where one of the
/// two is the newest, no other is.
pub fn replacing_law()
    ensures next { NextMayBeWritten }
    ensures shown { OldOrTriedIsNewest }
    ensures older { KeptIsOlder }
    ensures newest { NewestIsAmong }
{}

/// The laws of uniqueness: an image has one shape, one newest root, and one table area of a root.
pub fn uniqueness_law()
    ensures shapes { HasOneShape }
    ensures newest { HasOneNewest }
    ensures areas { HasOneArea }
    ensures whole { HasOneWhole }
{}
