//! A record where it lies in a page.
ghost use Rattle.std.specs.Prelude.{◌≡◌, ◌≤◌, ◌+◌, ◌↔◌, IsTrue, slice_index};
ghost use Rattle.std.specs.declared.cmp.Ordering.TheVariants.{Less};
ghost use Rattle.grid_types.specs.declared.sizes.TheConstants.{KEY_BYTES, LONGEST_DATA, MOST_ATTRIBUTES, PAGE_BYTES, RECORD_BYTES};
ghost use Rattle.grid_types.specs.Keys.{key_cmp};
ghost use Rattle.bucket_page.specs.OnPage.{numbers_at, data_at};
ghost use Rattle.bucket_page.specs.Judging.{IsRecordIn};

use grid_types::{DATA_AT, Data, KEY_BYTES, Key, LONGEST_DATA, PAGE_BYTES, RECORD_BYTES, Region};
use page_fields::{get_corner, zeros};
use std::cmp::Ordering;

/// The key at an offset.
pub fn key_at<const K: usize>(page: &[u8; PAGE_BYTES], at: usize) -> Key<K>
    requires room { at + KEY_BYTES ≤ PAGE_BYTES }
    requires few { K ≤ MOST_ATTRIBUTES }
    ensures { result.numbers ≡ numbers_at K at page.now }
{
    Key {
        numbers: get_corner(page, at),
    }
}

/// Whether a record stands at an offset, with zeros behind its key and its data, and its key lies in the region.
pub fn is_record<const K: usize>(page: &[u8; PAGE_BYTES], at: usize, region: &Region<K>) -> bool
    requires room { at + RECORD_BYTES ≤ PAGE_BYTES }
    requires few { K ≤ MOST_ATTRIBUTES }
    ensures { IsTrue result ↔ IsRecordIn K page.now region.now at }
{
    let len = page[at + KEY_BYTES] as usize;
    len <= LONGEST_DATA
        && zeros(page, at + 8 * K, at + KEY_BYTES)
        && zeros(page, at + DATA_AT + len, at + RECORD_BYTES)
        && region.contains(&key_at(page, at))
}

/// Whether the key at an offset stands below the key at another.
pub fn is_below<const K: usize>(page: &[u8; PAGE_BYTES], at: usize, next: usize) -> bool
    requires room { at + KEY_BYTES ≤ PAGE_BYTES }
    requires next { next + KEY_BYTES ≤ PAGE_BYTES }
    requires few { K ≤ MOST_ATTRIBUTES }
    ensures { IsTrue result
        ↔ (key_cmp (numbers_at K at page.now) (numbers_at K next page.now) ≡ Less) }
{
    key_at::<K>(page, at).is_below(&key_at(page, next))
}

/// How a key stands to the key at an offset.
pub fn order_at<const K: usize>(page: &[u8; PAGE_BYTES], at: usize, key: &Key<K>) -> Ordering
    requires room { at + KEY_BYTES ≤ PAGE_BYTES }
    requires few { K ≤ MOST_ATTRIBUTES }
    ensures { result ≡ key_cmp key.now.numbers (numbers_at K at page.now) }
{
    key.numbers.cmp(&get_corner(page, at))
}

/// The data of the record at an offset. Data that say they are too long are none.
pub fn data_at(page: &[u8; PAGE_BYTES], at: usize) -> Data
    requires room { at + RECORD_BYTES ≤ PAGE_BYTES }
    ensures { slice_index page.now (at + KEY_BYTES) ≤ LONGEST_DATA → result ≡ data_at page.now at }
{
    let len = page[at + KEY_BYTES] as usize;
    let from = at + DATA_AT;
    if len > LONGEST_DATA {
        return Data::default();
    }
    match Data::new(&page[from..from + len]) {
        Some(value) => value,
        None => unreachable!(),
    }
}
