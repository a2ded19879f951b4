//! Whether a page spells a bucket, judged where it lies: nothing of it is copied or spelled again.
ghost use Rattle.std.specs.Prelude.{◌≡◌, ◌≤◌, ◌↔◌, IsTrue, length, IfSome, OnSome, IfNone};
ghost use Rattle.grid_types.specs.declared.sizes.TheConstants.{MOST_ATTRIBUTES, MOST_RECORDS};
ghost use Rattle.grid_model.specs.Spellings.{BucketOf};
ghost use Rattle.grid_model.specs.Buckets.{SpellsBucket};
ghost use Rattle.bucket_page.specs.OnPage.{head_told, bucket_told};
ghost use Rattle.bucket_page.specs.Judging.{AreRecordsIn, KeysAscend, AreSoundRecords, IsSoundPage};

use crate::Head;
use crate::head::{is_sound_head, read_head};
use crate::record::{is_below, is_record};
use grid_types::{HEAD_BYTES, PAGE_BYTES, RECORD_BYTES, Region};
use page_fields::zeros;

/// Whether so many records stand behind the head, each with its zeros and in the region.
fn are_records<const K: usize>(page: &[u8; PAGE_BYTES], count: usize, region: &Region<K>) -> bool
    requires many { count ≤ MOST_RECORDS }
    requires few { K ≤ MOST_ATTRIBUTES }
    ensures { IsTrue result ↔ AreRecordsIn K page.now region.now count }
{
    for i in 0..count {
        if !is_record(page, HEAD_BYTES + RECORD_BYTES * i, region) {
            return false;
        }
    }
    true
}

/// Whether the keys of so many records ascend.
fn keys_ascend<const K: usize>(page: &[u8; PAGE_BYTES], count: usize) -> bool
    requires many { count ≤ MOST_RECORDS }
    requires few { K ≤ MOST_ATTRIBUTES }
    ensures { IsTrue result ↔ KeysAscend K page.now count }
{
    for i in 1..count {
        let before = HEAD_BYTES + RECORD_BYTES * (i - 1);
        if !is_below::<K>(page, before, HEAD_BYTES + RECORD_BYTES * i) {
            return false;
        }
    }
    true
}

/// Whether so many records stand behind the head in order, and zeros behind them.
fn are_sound_records<const K: usize>(
    page: &[u8; PAGE_BYTES],
    count: usize,
    region: &Region<K>,
) -> bool
    requires many { count ≤ MOST_RECORDS }
    requires few { K ≤ MOST_ATTRIBUTES }
    ensures { IsTrue result ↔ AreSoundRecords K page.now region.now count }
{
    if !are_records(page, count, region) {
        return false;
    }
    if !keys_ascend::<K>(page, count) {
        return false;
    }
    zeros(page, HEAD_BYTES + RECORD_BYTES * count, PAGE_BYTES)
}

/// Whether all that stands around the fields of a page with that head is as it has to be, and the fields are lawful.
fn is_sound<const K: usize>(page: &[u8; PAGE_BYTES], head: &Head<K>) -> bool
    requires many { head.now.count ≤ MOST_RECORDS }
    requires few { K ≤ MOST_ATTRIBUTES }
    ensures { IsTrue result ↔ IsSoundPage K page.now head.now }
{
    is_sound_head(page, head) && are_sound_records(page, head.count as usize, &head.region)
}

/// The head of the bucket that the page spells. With it the page can be searched and read where it lies.
pub fn judge<const K: usize>(page: &[u8; PAGE_BYTES], capacity: u16) -> Option<Head<K>>
    requires few { K ≤ MOST_ATTRIBUTES }
    requires lawful { capacity ≤ MOST_RECORDS }
    ensures head { IfSome result (λ h. h ≡ head_told K page.now) }
    ensures spelled { OnSome result (SpellsBucket capacity page.now (bucket_told K page.now)) }
    ensures count { IfSome result (λ h. h.count ≤ capacity) }
    ensures records { IfSome result (λ h. length (bucket_told K page.now).rows ≡ h.count) }
    ensures none { IfNone result ((b : BucketOf K) → SpellsBucket capacity page.now b → ⊥) }
{
    let head = read_head(page);
    if capacity < head.count {
        return None;
    }
    if is_sound(page, &head) {
        Some(head)
    } else {
        None
    }
}
