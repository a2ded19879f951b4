//! A batch from the bytes of a page.
ghost use Rattle.std.specs.Prelude.{◌≡◌, ◌≤◌, ◌+◌, List, [], length, slice_index, IsTrue, IsFalse, IfSome, IfNone};
ghost use Rattle.grid_types.specs.declared.layout_change.LayoutChange.{LayoutChange};
ghost use Rattle.grid_types.specs.declared.layout_change.LoggedUpdate.{LoggedUpdate};
ghost use Rattle.grid_types.specs.declared.update.Update.{Update};
ghost use Rattle.grid_types.specs.declared.sizes.TheConstants.{PAGE_BYTES, UPDATE_BYTES, MOST_UPDATES};
ghost use Rattle.grid_model.specs.Spellings.{slot_spelling};
ghost use Rattle.grid_model.specs.Spellings as model;
ghost use Rattle.grid_model.specs.Images.{SpellsBatch};
ghost use Rattle.journal_slots.specs.Batches.{batch_of};
ghost use Rattle.journal_slots.specs.Reading.{NoteAt, ChangeAt, NotedAt, UpdatesAt, AreLawfulBatchFields};

use crate::lawful::is_lawful;
use crate::{Batch, encode};
use arrayvec::ArrayVec;
use grid_types::{
    Cut, Data, HEAD_BYTES, Key, LayoutChange, LoggedUpdate, MOST_UPDATES, PAGE_BYTES, Record,
    UPDATE_BYTES, Update,
};
use page_fields::{get_corner, get_u16, get_u32, get_u64};

/// How many bytes are looked at from the start of an update on: those in front of its data, and as many as a byte can say.
const WINDOW: usize = 48 + 255;

fn read_note(page: &[u8; PAGE_BYTES], at: usize) -> Option<LayoutChange>
    requires room { at + UPDATE_BYTES ≤ PAGE_BYTES }
    ensures found { IfSome result (λ n. NoteAt page.now at n) }
    ensures none { IfNone result ((n : LayoutChange) → NoteAt page.now at n → ⊥) }
{
    let kind = page[at + 1];
    if kind == 1 || kind == 2 {
        let cut = Cut {
            attribute: page[at + 2],
            value: get_u64(page, at + 8),
            fresh: kind == 2,
        };
        let right = get_u32(page, at + 4);
        return Some(LayoutChange::Cut { cut, right });
    }
    match kind {
        0 => Some(LayoutChange::Plain),
        3 => Some(LayoutChange::Merge {
            with: get_u32(page, at + 4),
        }),
        _ => None,
    }
}

fn read_put<const K: usize>(page: &[u8; PAGE_BYTES], at: usize) -> Option<Update<K>>
    requires room { at + WINDOW ≤ PAGE_BYTES }
    requires few { K ≤ 4 }
    requires kind { slice_index page.now at ≡ 1 }
    ensures found { IfSome result (λ u. ChangeAt K page.now at u) }
    ensures none { IfNone result ((u : Update K) → ChangeAt K page.now at u → ⊥) }
{
    let len = page[at + 3] as usize;
    let Some(value) = Data::new(&page[at + 48..at + 48 + len]) else {
        return None;
    };
    let key = Key {
        numbers: get_corner(page, at + 16),
    };
    Some(Update::Put(Record { key, value }))
}

fn read_change<const K: usize>(page: &[u8; PAGE_BYTES], at: usize) -> Option<Update<K>>
    requires room { at + WINDOW ≤ PAGE_BYTES }
    requires few { K ≤ 4 }
    ensures found { IfSome result (λ u. ChangeAt K page.now at u) }
    ensures none { IfNone result ((u : Update K) → ChangeAt K page.now at u → ⊥) }
{
    match page[at] {
        1 => read_put(page, at),
        2 => Some(Update::Remove(Key {
            numbers: get_corner(page, at + 16),
        })),
        _ => None,
    }
}

fn read_update<const K: usize>(page: &[u8; PAGE_BYTES], at: usize) -> Option<LoggedUpdate<K>>
    requires room { at + WINDOW ≤ PAGE_BYTES }
    requires few { K ≤ 4 }
    ensures found { IfSome result (λ u. NotedAt K page.now at u) }
    ensures none { IfNone result ((u : LoggedUpdate K) → NotedAt K page.now at u → ⊥) }
{
    let Some(update) = read_change(page, at) else {
        return None;
    };
    let Some(note) = read_note(page, at) else {
        return None;
    };
    Some(LoggedUpdate { update, note })
}

/// Reads the updates of a page into `updates`, up to one whose bytes are those of no update.
fn read_updates<const K: usize>(
    page: &[u8; PAGE_BYTES],
    count: usize,
    updates: &mut ArrayVec<LoggedUpdate<K>, MOST_UPDATES>,
) -> bool
    requires many { count ≤ MOST_UPDATES }
    requires few { K ≤ 4 }
    requires empty { updates.old.items ≡ [] }
    ensures count { IsTrue result → length updates.new.items ≡ count }
    ensures found { IsTrue result → UpdatesAt K page.now updates.new.items }
    ensures none { IsFalse result
        → (us : List (LoggedUpdate K))
        → length us ≡ count
        → UpdatesAt K page.now us
        → ⊥ }
{
    for i in 0..count {
        let Some(noted) = read_update(page, HEAD_BYTES + UPDATE_BYTES * i) else {
            return false;
        };
        updates.push(noted);
    }
    true
}

/// Whether the batch is lawful, and this page its one spelling.
fn is_spelled<const K: usize>(page: &[u8; PAGE_BYTES], batch: &Batch<K>) -> bool
    requires few { K ≤ 4 }
    ensures lawful { IsTrue result → AreLawfulBatchFields (batch_of batch.now) }
    ensures bytes { IsTrue result → page.now ≡ slot_spelling (batch_of batch.now) }
    ensures all { AreLawfulBatchFields (batch_of batch.now)
        → page.now ≡ slot_spelling (batch_of batch.now)
        → IsTrue result }
{
    if !is_lawful(batch) {
        return false;
    }
    let mut again = [0; PAGE_BYTES];
    encode(batch, &mut again);
    again == *page
}

/// The batch whose page this is. There is one at most.
pub fn decode<const K: usize>(page: &[u8; PAGE_BYTES]) -> Option<Batch<K>>
    requires few { K ≤ 4 }
    ensures found { IfSome result (λ b. SpellsBatch page.now (batch_of b)) }
    ensures only { IfSome result (λ b. (c : model.LoggedBatch K)
        → SpellsBatch page.now c
        → batch_of b ≡ c) }
    ensures none { IfNone result ((c : model.LoggedBatch K) → SpellsBatch page.now c → ⊥) }
{
    let count = get_u16(page, 4) as usize;
    if count > MOST_UPDATES {
        return None;
    }
    let mut batch = Batch {
        session: get_u64(page, 8),
        first: get_u64(page, 16),
        updates: ArrayVec::new(),
    };
    if !read_updates(page, count, &mut batch.updates) {
        return None;
    }
    if is_spelled(page, &batch) {
        Some(batch)
    } else {
        None
    }
}
