//! The law of crashes, as the contract of a function without code.
ghost use Rattle.file_images.specs.CrashRows.{CrashRows};

/// The law of crashes: what each image stands for that a crash leaves at the moments that matter most.
pub fn crash_law<const K: usize>()
    ensures { CrashRows K }
{}
