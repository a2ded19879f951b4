//! A key among the records of a page, sought where they lie.
ghost use Rattle.std.specs.Prelude.{◌≡◌, ◌<◌, ◌≤◌, ℕ, IfOk, IfErr};
ghost use Rattle.grid_types.specs.declared.sizes.TheConstants.{MOST_ATTRIBUTES, MOST_RECORDS};
ghost use Rattle.grid_model.specs.Tables.{get, pairs_of};
ghost use Rattle.bucket_page.specs.Search.{HasRecordAt, FitsBefore};
ghost use Rattle.bucket_page.specs.OnPage.{OfBucket, OfRecord};

use crate::record::{data_at, key_at, order_at};
use grid_types::{Data, HEAD_BYTES, Key, PAGE_BYTES, RECORD_BYTES, Record};
use std::cmp::Ordering;

/// The index of the record that has the key, or else the index at which it would stand, found in halves of the page.
pub fn find_on<const K: usize>(
    page: &[u8; PAGE_BYTES],
    count: usize,
    key: &Key<K>,
) -> Result<usize, usize>
    requires many { count ≤ MOST_RECORDS }
    requires few { K ≤ MOST_ATTRIBUTES }
    ensures found { OfBucket K page.now count
        (λ b. IfOk result (λ i. HasRecordAt b.rows key.now.numbers i)) }
    ensures none { OfBucket K page.now count
        (λ b. IfErr result (λ i. FitsBefore key.now.numbers b.rows i)) }
    ensures inside { IfOk result (λ i. i < count) }
    ensures place { IfErr result (λ i. i ≤ count) }
{
    let mut low = 0;
    let mut high = count;
    'halves: while low < high {
        let middle = low + (high - low) / 2;
        match order_at(page, HEAD_BYTES + RECORD_BYTES * middle, key) {
            Ordering::Less => high = middle,
            Ordering::Equal => return Ok(middle),
            Ordering::Greater => low = middle + 1,
        }
    }
    Err(low)
}

/// The data of the record at an index.
pub fn data_on(page: &[u8; PAGE_BYTES], i: usize) -> Data
    requires { i < MOST_RECORDS }
    ensures { (K : ℕ) → K ≤ MOST_ATTRIBUTES → OfRecord K page.now i (λ r. result ≡ r.value) }
{
    data_at(page, HEAD_BYTES + RECORD_BYTES * i)
}

/// The record at an index.
pub fn record_on<const K: usize>(page: &[u8; PAGE_BYTES], i: usize) -> Record<K>
    requires many { i < MOST_RECORDS }
    requires few { K ≤ MOST_ATTRIBUTES }
    ensures { OfRecord K page.now i (λ r. result ≡ r) }
{
    let at = HEAD_BYTES + RECORD_BYTES * i;
    Record {
        key: key_at(page, at),
        value: data_at(page, at),
    }
}

/// The data that a key has.
pub fn get_on<const K: usize>(page: &[u8; PAGE_BYTES], count: usize, key: &Key<K>) -> Option<Data>
    requires many { count ≤ MOST_RECORDS }
    requires few { K ≤ MOST_ATTRIBUTES }
    ensures { OfBucket K page.now count (λ b. result ≡ get (pairs_of b.rows) key.now.numbers) }
{
    match find_on(page, count, key) {
        Ok(i) => Some(data_on(page, i)),
        Err(_before) => None,
    }
}
