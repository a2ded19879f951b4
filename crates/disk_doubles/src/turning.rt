//! Bits of a page that are turned.
ghost use Rattle.std.specs.Prelude.{◌≡◌, ◌≢◌, ◌<◌};
ghost use Rattle.grid_types.specs.declared.sizes.TheConstants.{PAGE_BYTES};
ghost use Rattle.disk_doubles.specs.Turning.{with_turned};

use grid_types::PAGE_BYTES;

/// Some bits of one byte of a page, at least one.
#[derive(Clone, Copy)]
pub struct Turn {
    pub at: usize,
    pub bits: u8,
    pub ghost inside: { at < PAGE_BYTES },
    pub ghost some: { bits ≢ 0 },
}

impl Turn {
    /// Turns them.
    pub fn make(&self, page: &mut [u8; PAGE_BYTES])
        ensures { page.new ≡ with_turned self.now.at self.now.bits page.old }
    {
        page[self.at] ^= self.bits;
    }
}
