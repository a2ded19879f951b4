//! The records of all buckets, counted.
ghost use Rattle.std.specs.Prelude.{◌≡◌, ◌≤◌, ℕ, List, length};
ghost use Rattle.grid_types.specs.declared.sizes.TheConstants.{MOST_ATTRIBUTES};
ghost use Rattle.grid_check.specs.Covers.{records_under};
ghost use Rattle.grid_check.specs.Reads.{AreHeld};
ghost use Rattle.grid_check.specs.Rules.{HasRecords};

use crate::Holding;
use crate::numbers::is_numbered;
use grid_types::{Geometry, PageList};

/// How many records the bucket of a number has, or none where no bucket has the number.
fn records_at<const K: usize>(table: &PageList, holdings: &[Holding<K>], number: u32) -> u64
    requires room { length holdings.now ≡ length table.now.items }
    ensures value { result ≡ records_under table.now.items holdings.now number }
    ensures few { result ≤ 65535 }
{
    if !is_numbered(table, number) {
        return 0;
    }
    holdings[number as usize].count.into()
}

/// How many records the buckets have together.
pub fn count_records<const K: usize>(
    geometry: &Geometry,
    table: &PageList,
    holdings: &[Holding<K>],
) -> u64
    requires count { length table.now.items ≡ geometry.now.shape.pages }
    requires few { K ≤ MOST_ATTRIBUTES }
    requires room { length holdings.now ≡ length table.now.items }
    ensures counted { (image : List ℕ)
        → AreHeld geometry.now.shape image table.now.items holdings.now (length table.now.items)
        → HasRecords K geometry.now.shape image table.now.items result }
{
    let mut count = 0;
    for number in 0..geometry.shape.pages {
        count += records_at(table, holdings, number);
    }
    count
}
