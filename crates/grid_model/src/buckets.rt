//! The law of the buckets of a layout's boxes.
ghost use Rattle.grid_model.specs.BucketLaws.{DividesTable};

/// The law of buckets: a layout that is sound for a table divides it into lawful buckets, each record in one of them.
pub fn bucket_law<const K: usize>()
    ensures { DividesTable K }
{}
