//! Whether two buckets are joined.
ghost use Rattle.std.specs.Prelude.{◌≡◌, ◌*◌, ◌/◌, ◌&&◌, nat_le};
ghost use Rattle.grid_types.specs.Regions.{make_a_box};

use grid_types::Region;

/// Whether buckets of these regions are joined that have so many records together: the regions are a box, and the records
/// are at most seven tenths of a bucket's capacity.
pub fn joinable<const K: usize>(a: &Region<K>, b: &Region<K>, rows: u32, capacity: u16) -> bool
    ensures { result ≡ (make_a_box a.now b.now && nat_le rows (7 * capacity / 10)) }
{
    a.joins(b).is_some() && rows <= 7 * u32::from(capacity) / 10
}
