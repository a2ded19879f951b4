//! A change of a byte of a file.
use grid_types::PAGE_BYTES;
use std::fmt;

/// Some bits of one byte of a page that are turned.
#[derive(Clone, Copy, Debug)]
pub struct Flip {
    pub page: u32,
    pub at: u16,
    pub bits: u8,
}

impl Flip {
    /// Turns them in the bytes of a file.
    pub fn make(&self, bytes: &mut [u8]) {
        let place = self.page as usize * PAGE_BYTES + self.at as usize;
        if let Some(byte) = bytes.get_mut(place) {
            *byte ^= self.bits;
        }
    }
}

impl fmt::Display for Flip {
    fn fmt<W: fmt::Write>(&self, f: &mut fmt::Formatter<W>) -> fmt::Result {
        let Flip { page, at, bits } = *self;
        write!(f, "page {page}, byte {at}, bits {bits}")
    }
}
