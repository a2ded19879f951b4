//! What an update works in.
ghost use Rattle.std.specs.Prelude.{◌≡◌, IfOk};
ghost use Rattle.file_updates.specs.Rooms.{HasRoomFor};

use grid_types::{Geometry, PAGE_BYTES};
use linear_scales::Scales;
use shadow_directory::PartRoom;
use std::alloc::{AllocError, Global};

/// The pages as they were found, the new pages of buckets, and what a growing directory needs. It is never cleared.
#[derive(Drop)]
pub struct UpdateRoom<const K: usize> {
    /// The page of the bucket that has the key.
    pub(crate) found: Box<[u8; PAGE_BYTES]>,
    /// The page of a bucket with which it is joined.
    pub(crate) beside: Box<[u8; PAGE_BYTES]>,
    /// The new page of the bucket, or of its left part, or of two that are joined.
    pub(crate) first: Box<[u8; PAGE_BYTES]>,
    /// The new page of its right part.
    pub(crate) second: Box<[u8; PAGE_BYTES]>,
    pub(crate) parts: Box<PartRoom>,
    /// The scales with a fresh boundary.
    pub(crate) refined: Scales<K>,
}

impl<const K: usize> UpdateRoom<K> {
    /// Room for the updates of a file of that shape. No update takes memory beside it.
    pub fn new(alloc: Global, geometry: &Geometry) -> Result<UpdateRoom<K>, AllocError>
        ensures { IfOk result (HasRoomFor geometry.now.shape) }
    {
        let found = Box::new(alloc, [0; PAGE_BYTES])?;
        let beside = Box::new(alloc, [0; PAGE_BYTES])?;
        let first = Box::new(alloc, [0; PAGE_BYTES])?;
        let second = Box::new(alloc, [0; PAGE_BYTES])?;
        let parts = Box::new(
            alloc,
            PartRoom {
                old_page: [0; PAGE_BYTES],
                page: [0; PAGE_BYTES],
            },
        )?;
        let refined = Scales::new(alloc, geometry.shape.boundaries as u16)?;
        Ok(UpdateRoom {
            found,
            beside,
            first,
            second,
            parts,
            refined,
        })
    }
}
