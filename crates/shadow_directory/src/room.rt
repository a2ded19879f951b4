//! The page buffers of the caller.
use grid_types::PAGE_BYTES;

/// The page buffers by which directory parts are written.
#[derive(Drop)]
pub struct PartRoom {
    /// The page of an old part.
    pub old_page: [u8; PAGE_BYTES],
    /// The page of a new part.
    pub page: [u8; PAGE_BYTES],
}
