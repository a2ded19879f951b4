//! The page of a bucket.
ghost use Rattle.std.specs.Prelude.{◌≡◌, ◌≤◌, ◌+◌, ◌++◌, take};
ghost use Rattle.arrayvec.specs.ArrayVec.{array_vec_len};
ghost use Rattle.grid_types.specs.declared.sizes.TheConstants.{HEAD_BYTES, MOST_ATTRIBUTES, MOST_RECORDS, PAGE_BYTES, RECORD_BYTES};
ghost use Rattle.grid_types.specs.Keys.{IsKey};
ghost use Rattle.grid_model.specs.Tables.{IsData};
ghost use Rattle.grid_model.specs.Spellings.{record_bytes, bucket_head, bucket_spelling};
ghost use Rattle.grid_model.specs.Buckets.{IsBucket, SpellsBucket};
ghost use Rattle.bucket_page.specs.Buckets.{bucket_of};

use crate::Bucket;
use grid_types::{DATA_AT, HEAD_BYTES, KEY_BYTES, PAGE_BYTES, RECORD_BYTES, Record};
use page_fields::{put_bytes, put_corner, put_zeros, set_u16, set_u32};

/// Writes a record into the `RECORD_BYTES` bytes at an offset.
pub fn put_row<const K: usize>(page: &mut [u8; PAGE_BYTES], at: usize, row: &Record<K>)
    requires room { at + RECORD_BYTES ≤ PAGE_BYTES }
    requires few { K ≤ MOST_ATTRIBUTES }
    ensures front { take (at + RECORD_BYTES) page.new ≡ take at page.old ++ record_bytes row.now }
    ensures key { IsKey K row.now.key.numbers }
    ensures short { IsData row.now.value }
{
    let _numbers = row.key.numbers();
    let bytes = row.value.bytes();
    put_corner(page, at, &row.key.numbers);
    let from = at + DATA_AT;
    put_bytes(page, at + KEY_BYTES, &[bytes.len() as u8]);
    put_bytes(page, from, bytes);
    put_zeros(page, from + bytes.len(), at + RECORD_BYTES);
}

fn put_head<const K: usize>(page: &mut [u8; PAGE_BYTES], bucket: &Bucket<K>)
    requires few { K ≤ MOST_ATTRIBUTES }
    ensures front { take HEAD_BYTES page.new ≡ bucket_head (bucket_of bucket.now) }
{
    put_bytes(page, 0, b"GFB1");
    set_u32(page, 4, bucket.number);
    set_u16(page, 8, bucket.rows.len() as u16);
    put_bytes(page, 10, &[bucket.turn, K as u8, 0, 0, 0, 0]);
    put_corner(page, 16, &bucket.region.lo);
    put_corner(page, 16 + KEY_BYTES, &bucket.region.hi);
    put_zeros(page, 16 + 2 * KEY_BYTES, HEAD_BYTES);
}

/// Makes `page` the page of the bucket, whatever it was before.
pub fn encode<const K: usize>(bucket: &Bucket<K>, capacity: u16, page: &mut [u8; PAGE_BYTES])
    requires few { K ≤ MOST_ATTRIBUTES }
    requires lawful { capacity ≤ MOST_RECORDS }
    requires fits { array_vec_len bucket.now.rows ≤ capacity }
    ensures written { page.new ≡ bucket_spelling (bucket_of bucket.now) }
    ensures spelled { IsBucket capacity (bucket_of bucket.now)
        → SpellsBucket capacity page.new (bucket_of bucket.now) }
{
    put_head(page, bucket);
    for (i, row) in bucket.rows.as_slice().iter().enumerate() {
        put_row(page, HEAD_BYTES + RECORD_BYTES * i, row);
    }
    put_zeros(
        page,
        HEAD_BYTES + RECORD_BYTES * bucket.rows.len(),
        PAGE_BYTES,
    );
}
