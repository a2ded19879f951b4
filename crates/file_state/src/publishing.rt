//! A change is published: its pages, its boundary, and what it does to the counts.
ghost use Rattle.std.specs.Prelude.{◌≡◌, ◌<◌, ◌≤◌, ◌+◌, ◌^◌, ℕ, length, map};
ghost use Rattle.grid_types.specs.declared.owner.Owner.TheVariants.{Bucket, Part};
ghost use Rattle.grid_types.specs.declared.sizes.TheConstants.{MOST_ATTRIBUTES};
ghost use Rattle.linear_scales.specs.Limited.{scales_of, limits_of};
ghost use Rattle.directory_changes.specs.Changes.{parts_after, parts_changed, IsChangeOf};
ghost use Rattle.page_states.specs.Changes.{ArePublishable, all_published, all_vanished};
ghost use Rattle.layout_pages.specs.Steps.{buckets_renewed, owners_renewed, owners_vanishing, publications, published_states};
ghost use Rattle.file_books.specs.Effects.{published_books, scales_after_change, IsPublishable};
ghost use Rattle.file_state.specs.Memories.{books_of, publishing_of, IsMemory};
ghost use Rattle.file_state.specs.Publishings.{AreNumbersBelow, buckets_vanishing, TakesNote, unused_after};

use crate::change::Change;
use crate::counting::{buckets_after, records_after};
use crate::memory::Memory;
use directory_changes::{DirectoryChange, is_changed, parts_after};
use grid_cells::Dims;
use grid_types::{LayoutChange, Owner};
use linear_scales::Scales;
use page_states::PageStates;

/// The new pages of buckets become current. How many they are.
fn publish_buckets(
    states: &mut PageStates,
    bucket: u32,
    note: LayoutChange,
    pages: &[u32],
    at: u64,
) -> usize
    requires claimed { ArePublishable pages.now states.old }
    requires enough { length (buckets_renewed bucket note) ≤ length pages.now }
    requires known { AreNumbersBelow (length states.old) (buckets_renewed bucket note) }
    ensures count { result ≡ length (buckets_renewed bucket note) }
    ensures states { states.new
        ≡ all_published at (publications (map Bucket (buckets_renewed bucket note)) pages.now)
        states.old }
{
    match note {
        LayoutChange::Plain => {
            states.publish(pages[0], Owner::Bucket(bucket), at);
            1
        }
        LayoutChange::Cut { right, .. } => {
            states.publish(pages[0], Owner::Bucket(bucket), at);
            states.publish(pages[1], Owner::Bucket(right), at);
            2
        }
        LayoutChange::Merge { with } => {
            states.publish(pages[0], Owner::Bucket(bucket.min(with)), at);
            1
        }
    }
}

/// The new pages of directory parts become current.
fn publish_parts<const K: usize>(
    states: &mut PageStates,
    dims: &Dims<K>,
    directory: &DirectoryChange<K>,
    pages: &[u32],
    at: u64,
)
    requires change { IsChangeOf dims.now.intervals directory.now }
    requires claimed { ArePublishable pages.now states.old }
    requires count { length pages.now ≡ length (parts_changed dims.now.intervals directory.now) }
    requires known { parts_after dims.now.intervals directory.now ≤ length states.old }
    ensures { states.new
        ≡ all_published at
        (publications (map Part (parts_changed dims.now.intervals directory.now)) pages.now)
        states.old }
{
    if pages.is_empty() {
        return;
    }
    let mut next = 0;
    for part in 0..parts_after(dims, directory) {
        if is_changed(dims, directory, part) {
            states.publish(pages[next], Owner::Part(part), at);
            next += 1;
        }
    }
}

/// The page of a bucket that vanishes ends.
fn end_vanishing(states: &mut PageStates, bucket: u32, note: LayoutChange, at: u64)
    requires { AreNumbersBelow (length states.old) (buckets_vanishing bucket note) }
    ensures { states.new ≡ all_vanished at (owners_vanishing bucket note) states.old }
{
    match note {
        LayoutChange::Plain => {}
        LayoutChange::Cut { .. } => {}
        LayoutChange::Merge { with } => states.vanish(Owner::Bucket(bucket.max(with)), at),
    }
}

/// The new pages become current, and the page of a bucket that vanishes ends.
fn publish_pages<const K: usize>(
    states: &mut PageStates,
    dims: &Dims<K>,
    change: &Change<K>,
    pages: &[u32],
    at: u64,
)
    requires attributes { K ≤ MOST_ATTRIBUTES }
    requires change { IsChangeOf dims.now.intervals change.now.directory }
    requires claimed { ArePublishable pages.now states.old }
    requires count { length pages.now ≡ length (owners_renewed change.now.bucket change.now.note
        (parts_changed dims.now.intervals change.now.directory)) }
    requires buckets { AreNumbersBelow (length states.old)
        (buckets_renewed change.now.bucket change.now.note) }
    requires vanishing { AreNumbersBelow (length states.old)
        (buckets_vanishing change.now.bucket change.now.note) }
    requires parts { parts_after dims.now.intervals change.now.directory ≤ length states.old }
    ensures { states.new ≡ published_states at change.now.bucket change.now.note
        (parts_changed dims.now.intervals change.now.directory) pages.now states.old }
{
    let count = publish_buckets(states, change.bucket, change.note, pages, at);
    publish_parts(states, dims, &change.directory, &pages[count..], at);
    end_vanishing(states, change.bucket, change.note, at);
}

/// A fresh boundary joins its scale.
fn refine<const K: usize>(scales: &mut Scales<K>, note: LayoutChange)
    requires { TakesNote K scales.old note }
    ensures scales { scales_of scales.new ≡ scales_after_change (scales_of scales.old) note }
    ensures limits { limits_of scales.new ≡ limits_of scales.old }
{
    if let LayoutChange::Cut { cut, .. } = note {
        if cut.fresh {
            match scales.refine(cut.attribute as usize, cut.value) {
                Ok(()) => {}
                Err(_) => unreachable!(),
            }
        }
    }
}

/// The number up to which each bucket number has a page, after a change.
fn unused_after(from: u32, bucket: u32, note: LayoutChange) -> u32
    requires { from + 1 < 2 ^ 32 }
    ensures { result ≡ unused_after from bucket note }
{
    match note {
        LayoutChange::Plain => from,
        LayoutChange::Cut { right, .. } => if right == from { from + 1 } else { from },
        LayoutChange::Merge { with } => from.min(bucket.max(with)),
    }
}

/// A change is published at the next place.
pub(crate) fn publish<const K: usize>(memory: &mut Memory<K>, change: &Change<K>, pages: &[u32])
    requires memory { IsMemory memory.old }
    requires change { IsPublishable (books_of memory.old) (publishing_of change.now pages.now) }
    ensures memory { IsMemory memory.new }
    ensures books { books_of memory.new
        ≡ published_books (books_of memory.old) (publishing_of change.now pages.now) }
{
    let at = memory.counts.front + 1;
    let dims = Dims {
        intervals: memory.scales.dims(),
    };
    publish_pages(&mut memory.pages, &dims, change, pages, at);
    refine(&mut memory.scales, change.note);
    let buckets = buckets_after(memory.counts.buckets, change.note);
    let most = u64::from(buckets) * u64::from(memory.geometry.shape.capacity);
    memory.counts.records = records_after(most, memory.counts.records, change.records);
    memory.counts.buckets = buckets;
    memory.counts.front = at;
    memory.unused_from = unused_after(memory.unused_from, change.bucket, change.note);
}
