//! The laws of images, as contracts of functions without code.
ghost use Rattle.file_images.specs.Damages.{ReadsUndamaged};
ghost use Rattle.file_images.specs.Free.{FreePagesSayNothing};
ghost use Rattle.file_images.specs.Laws.{StandsOnce};

/// The law of images: an image stands for one place, one table and one layout at most.
pub fn image_law<const K: usize>()
    ensures { StandsOnce K }
{}

/// The law of free pages: what a data page has that the newest root does not name is nothing to what the image stands for.
pub fn free_page_law<const K: usize>()
    ensures { FreePagesSayNothing K }
{}

/// The law of damages: an image that reads as a table has none of the damages for which a file is refused before its data
/// pages are read (`docs/FORMAT.md`).
pub fn damage_law<const K: usize>()
    ensures { ReadsUndamaged K }
{}
