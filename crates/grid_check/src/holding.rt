//! What is held of a bucket's page.
ghost use Rattle.grid_types.specs.Regions.{IsRegion};

use grid_types::Region;

/// What the page of a bucket says that the rules need, while the page itself is let go.
#[derive(Clone, Copy, Debug, PartialEq, Eq)]
pub struct Holding<const K: usize> {
    pub region: Region<K>,
    /// How many records there are.
    pub count: u16,
    pub ghost lawful: { IsRegion K region },
}
