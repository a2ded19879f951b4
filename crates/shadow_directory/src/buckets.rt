//! The new pages of buckets, as they are handed in.
use grid_types::PAGE_BYTES;

/// The new page of a bucket.
#[derive(Clone, Copy)]
pub struct NewBucket<'a> {
    pub number: u32,
    pub page: &'a [u8; PAGE_BYTES],
}
