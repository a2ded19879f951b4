//! The records of a page that match a query, read where they lie.
ghost use Rattle.std.specs.Prelude.{◌≡◌, ◌≤◌, ◌++◌, length, OnOk};
ghost use Rattle.grid_types.specs.declared.sizes.TheConstants.{MOST_ATTRIBUTES, MOST_RECORDS};
ghost use Rattle.grid_model.specs.Tables.{pairs_of};
ghost use Rattle.grid_model.specs.Listings.{rows};
ghost use Rattle.bucket_page.specs.OnPage.{OfBucket};

use crate::record::key_at;
use crate::searching::record_on;
use grid_types::{HEAD_BYTES, PAGE_BYTES, Query, RECORD_BYTES, Rows};
use std::alloc::AllocError;

/// How many of the records match.
pub fn count_matching<const K: usize>(
    page: &[u8; PAGE_BYTES],
    count: usize,
    query: &Query<K>,
) -> usize
    requires many { count ≤ MOST_RECORDS }
    requires few { K ≤ MOST_ATTRIBUTES }
    ensures { OfBucket K page.now count
        (λ b. result ≡ length (rows (pairs_of b.rows) query.now)) }
{
    let mut found = 0;
    for i in 0..count {
        if query.admits(&key_at(page, HEAD_BYTES + RECORD_BYTES * i)) {
            found += 1;
        }
    }
    found
}

/// Adds the records that match, in the order of their keys. Its only error is want of memory.
pub fn push_matching<const K: usize>(
    page: &[u8; PAGE_BYTES],
    count: usize,
    query: &Query<K>,
    found: &mut Rows<K>,
) -> Result<(), AllocError>
    requires many { count ≤ MOST_RECORDS }
    requires few { K ≤ MOST_ATTRIBUTES }
    ensures { OfBucket K page.now count
        (λ b. OnOk result
        (pairs_of found.new ≡ pairs_of found.old ++ rows (pairs_of b.rows) query.now)) }
{
    for i in 0..count {
        if query.admits(&key_at(page, HEAD_BYTES + RECORD_BYTES * i)) {
            found.push(record_on(page, i))?;
        }
    }
    Ok(())
}
