//! The parts of a bucket that is cut, and two buckets that are joined.
ghost use Rattle.std.specs.Prelude.{◌≡◌, ◌<◌, ◌≤◌, ◌+◌, ◌%◌, ℕ, IsTrue, length};
ghost use Rattle.arrayvec.specs.ArrayVec.{array_vec_len};
ghost use Rattle.grid_types.specs.declared.sizes.TheConstants.{MOST_ATTRIBUTES};
ghost use Rattle.grid_types.specs.Regions.{is_within, make_a_box, hull};
ghost use Rattle.grid_model.specs.Tables.{IsTable, pairs_of};
ghost use Rattle.grid_model.specs.Buckets.{IsBucket};
ghost use Rattle.bucket_page.specs.declared.bucket.TheConstants.{MOST_IN_MEMORY};
ghost use Rattle.bucket_page.specs.Buckets.{bucket_of};
ghost use Rattle.bucket_page.specs.Changing.{lies_in, rows_in, left_bucket, right_bucket, joined_buckets};

use crate::{Bucket, MOST_IN_MEMORY};
use arrayvec::ArrayVec;
use grid_types::{Cut, Record, Region};

/// The same record.
fn copy<const K: usize>(row: &Record<K>) -> Record<K>
    ensures { result ≡ row.now }
{
    Record {
        key: row.key,
        value: row.value.copy(),
    }
}

/// A part of a bucket that is cut: the records below the boundary, or the others.
#[derive(Clone, Copy)]
pub enum Part {
    Left,
    Right,
}

/// Whether a number in the attribute of the cut is one of that part.
fn lies_in(part: Part, number: u64, value: u64) -> bool
    ensures { result ≡ lies_in part number value }
{
    match part {
        Part::Left => number < value,
        Part::Right => value <= number,
    }
}

/// The records of that part.
fn rows_in<const K: usize>(
    part: Part,
    rows: &ArrayVec<Record<K>, MOST_IN_MEMORY>,
    attribute: usize,
    value: u64,
) -> ArrayVec<Record<K>, MOST_IN_MEMORY>
    requires { attribute < K }
    ensures { result.items ≡ rows_in part rows.now.items attribute value }
{
    let mut chosen = ArrayVec::new();
    for row in rows.as_slice() {
        if lies_in(part, row.key.numbers[attribute], value) {
            chosen.push(copy(row));
        }
    }
    chosen
}

/// The turn of both parts of a bucket that is cut in an attribute: the attribute behind it.
fn next_turn<const K: usize>(attribute: u8) -> u8
    requires attribute { attribute < K }
    requires few { K ≤ MOST_ATTRIBUTES }
    ensures { result ≡ (attribute + 1) % K }
{
    let next = attribute as usize + 1;
    if next == K { 0 } else { next as u8 }
}

impl<const K: usize> Bucket<K> {
    /// The left part of the bucket: it has the number and the records below the boundary.
    pub fn left_part(&self, cut: &Cut) -> Bucket<K>
        requires attribute { cut.now.attribute < K }
        requires few { K ≤ MOST_ATTRIBUTES }
        requires within { IsTrue (is_within self.now.region cut.now.attribute cut.now.value) }
        ensures part { bucket_of result ≡ left_bucket (bucket_of self.now) cut.now }
        ensures lawful { (c m : ℕ) → IsBucket m (bucket_of self.now)
            → length result.rows.items ≤ c
            → IsBucket c (bucket_of result) }
    {
        let (region, _) = self.region.cut(cut.attribute, cut.value);
        Bucket {
            number: self.number,
            turn: next_turn::<K>(cut.attribute),
            region,
            rows: rows_in(Part::Left, &self.rows, cut.attribute as usize, cut.value),
        }
    }

    /// The right part of the bucket: it gets that number, and has the other records.
    pub fn right_part(&self, cut: &Cut, number: u32) -> Bucket<K>
        requires attribute { cut.now.attribute < K }
        requires few { K ≤ MOST_ATTRIBUTES }
        requires within { IsTrue (is_within self.now.region cut.now.attribute cut.now.value) }
        ensures part { bucket_of result ≡ right_bucket (bucket_of self.now) cut.now number }
        ensures lawful { (c m : ℕ) → IsBucket m (bucket_of self.now)
            → length result.rows.items ≤ c
            → IsBucket c (bucket_of result) }
    {
        let (_, region) = self.region.cut(cut.attribute, cut.value);
        Bucket {
            number,
            turn: next_turn::<K>(cut.attribute),
            region,
            rows: rows_in(Part::Right, &self.rows, cut.attribute as usize, cut.value),
        }
    }

    /// Takes in the records of another bucket, whose region and this one's are that region together. The lower number
    /// is the one that stays.
    pub fn join(&mut self, other: &Bucket<K>, region: &Region<K>)
        requires room { array_vec_len self.old.rows + array_vec_len other.now.rows
            ≤ MOST_IN_MEMORY }
        requires ascending { IsTable (pairs_of self.old.rows.items) }
        requires few { K ≤ MOST_ATTRIBUTES }
        ensures joined { region.now ≡ hull self.old.region other.now.region
            → bucket_of self.new ≡ joined_buckets (bucket_of self.old) (bucket_of other.now) }
        ensures lawful { (c m n : ℕ) → region.now ≡ hull self.old.region other.now.region
            → IsTrue (make_a_box self.old.region other.now.region)
            → IsBucket m (bucket_of self.old)
            → IsBucket n (bucket_of other.now)
            → length self.new.rows.items ≤ c
            → IsBucket c (bucket_of self.new) }
    {
        for row in other.rows.as_slice() {
            self.insert(row);
        }
        self.number = self.number.min(other.number);
        self.region = *region;
    }
}
