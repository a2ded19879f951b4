//! What is done with the records of each bucket that a walk reads: they are counted, or listed.
ghost use Rattle.std.specs.Prelude.{◌≡◌, ◌≤◌, ◌++◌, ℕ, Bool, false, true, IsTrue, length, OnOk, OnErr};
ghost use Rattle.grid_types.specs.declared.sizes.TheConstants.{MOST_ATTRIBUTES, MOST_RECORDS};
ghost use Rattle.grid_model.specs.Listings.{rows};
ghost use Rattle.grid_model.specs.Tables.{Table, pairs_of};
ghost use Rattle.bucket_page.specs.OnPage.{OfBucket};
ghost use Rattle.query_paths.specs.Gathering.{most_in_cells};

use bucket_page::{count_matching, push_matching};
use grid_types::{PAGE_BYTES, Query, Rows};
use std::alloc::AllocError;

/// A gathering of records, a bucket's page at a time.
pub trait Gather<const K: usize> {
    /// Whether it has gathered these records, each as its key with its data.
    ghost holds: { Self → Table → Type 0 };

    /// Whether there may be no memory for more.
    ghost may_lack: { Bool };

    /// Gathers the records of a page that match. Its only error is want of memory.
    fn gather(
        &mut self,
        page: &[u8; PAGE_BYTES],
        count: usize,
        query: &Query<K>,
    ) -> Result<(), AllocError>
        requires many { count ≤ MOST_RECORDS }
        requires few { K ≤ MOST_ATTRIBUTES }
        ensures gathered { (found : Table)
            → length found ≤ most_in_cells
            → holds self.old found
            → OfBucket K page.now count
            (λ b. OnOk result (holds self.new (found ++ rows (pairs_of b.rows) query.now))) }
        ensures lacks { OnErr result (IsTrue may_lack) };
}

/// How many records were found.
#[derive(Drop)]
pub struct Tally {
    pub rows: u64,
}

impl<const K: usize> Gather<K> for Tally {
    ghost holds = { λ t found. t.rows ≡ length found };

    ghost may_lack = { false };

    fn gather(
        &mut self,
        page: &[u8; PAGE_BYTES],
        count: usize,
        query: &Query<K>,
    ) -> Result<(), AllocError> {
        // At most 48 of each of a million cells are counted, so nothing is cut off here.
        let found = count_matching(page, count, query) as u64;
        self.rows = self.rows.saturating_add(found);
        Ok(())
    }
}

/// The records that were found, in the order in which their buckets were read.
#[derive(Drop)]
pub struct Listing<const K: usize> {
    pub rows: Rows<K>,
}

impl<const K: usize> Gather<K> for Listing<K> {
    ghost holds = { λ l found. pairs_of l.rows ≡ found };

    ghost may_lack = { true };

    fn gather(
        &mut self,
        page: &[u8; PAGE_BYTES],
        count: usize,
        query: &Query<K>,
    ) -> Result<(), AllocError> {
        push_matching(page, count, query, &mut self.rows)
    }
}
