//! What a count or a listing works in.
ghost use Rattle.std.specs.Prelude.{◌≡◌, false, None, length, replicate, IfOk};

use crate::marks::Marks;
use grid_types::PAGE_BYTES;
use std::alloc::{AllocError, Global};

/// The directory part whose page was read last, and which page of the file that is.
#[derive(Clone, Copy, Debug, PartialEq, Eq)]
pub struct Held {
    pub part: u32,
    pub at: u32,
}

/// A page for a directory part, a page for a bucket, and a mark for each bucket number. The pages are never cleared.
#[derive(Drop)]
pub struct Room<const K: usize> {
    pub(crate) part: Box<[u8; PAGE_BYTES]>,
    pub(crate) bucket: Box<[u8; PAGE_BYTES]>,
    pub(crate) held: Option<Held>,
    pub(crate) marks: Marks,
}

impl<const K: usize> Room<K> {
    ghost use Rattle.query_paths.specs.Rooms.{room_for};

    /// Room for the buckets of lower numbers than that.
    pub fn new(alloc: Global, buckets: u32) -> Result<Room<K>, AllocError>
        ensures { IfOk result (λ r. room_for r ≡ buckets) }
    {
        let part = Box::new(alloc, [0; PAGE_BYTES])?;
        let bucket = Box::new(alloc, [0; PAGE_BYTES])?;
        let marks = Marks::new(alloc, buckets)?;
        Ok(Room {
            part,
            bucket,
            held: None,
            marks,
        })
    }

    /// Begins a walk: no part was read, and no bucket.
    pub fn begin(&mut self)
        ensures marks { self.new.marks ≡ replicate (length self.old.marks) false }
        ensures held { self.new.held ≡ None }
    {
        self.held = None;
        self.marks.clear();
    }
}
