//! The page of a batch.
ghost use Rattle.std.specs.Prelude.{◌≡◌, ◌≤◌, ◌+◌, ◌++◌, take};
ghost use Rattle.grid_types.specs.declared.sizes.TheConstants.{PAGE_BYTES, HEAD_BYTES, UPDATE_BYTES};
ghost use Rattle.grid_model.specs.Spellings.{update_bytes, slot_head, slot_spelling};
ghost use Rattle.grid_model.specs.Lawful.{IsBatch};
ghost use Rattle.grid_model.specs.Images.{SpellsBatch};
ghost use Rattle.journal_slots.specs.Batches.{batch_of};

use crate::Batch;
use crate::fields::{attribute, boundary, bucket, bytes, code, key, kind};
use grid_types::{HEAD_BYTES, LoggedUpdate, PAGE_BYTES, UPDATE_BYTES};
use page_fields::{put_bytes, put_corner, put_zeros, set_u16, set_u32, set_u64};

fn put_update<const K: usize>(page: &mut [u8; PAGE_BYTES], at: usize, noted: &LoggedUpdate<K>)
    requires room { at + UPDATE_BYTES ≤ PAGE_BYTES }
    requires few { K ≤ 4 }
    ensures front { take (at + UPDATE_BYTES) page.new ≡ take at page.old ++ update_bytes noted.now }
{
    let note = &noted.note;
    let data = bytes(&noted.update);
    let kinds = [
        kind(&noted.update),
        code(note),
        attribute(note),
        data.len() as u8,
    ];
    put_bytes(page, at, &kinds);
    set_u32(page, at + 4, bucket(note));
    set_u64(page, at + 8, boundary(note));
    put_corner(page, at + 16, &key(&noted.update).numbers);
    put_bytes(page, at + 48, data);
    put_zeros(page, at + 48 + data.len(), at + UPDATE_BYTES);
}

fn put_head<const K: usize>(page: &mut [u8; PAGE_BYTES], batch: &Batch<K>)
    ensures front { take HEAD_BYTES page.new ≡ slot_head (batch_of batch.now) }
{
    put_bytes(page, 0, b"GFJ1");
    set_u16(page, 4, batch.updates.len() as u16);
    put_bytes(page, 6, &[0, 0]);
    set_u64(page, 8, batch.session);
    set_u64(page, 16, batch.first);
    put_zeros(page, 24, HEAD_BYTES);
}

/// Makes `page` the page of the batch, whatever it was before.
pub fn encode<const K: usize>(batch: &Batch<K>, page: &mut [u8; PAGE_BYTES])
    requires few { K ≤ 4 }
    ensures written { page.new ≡ slot_spelling (batch_of batch.now) }
    ensures spelled { IsBatch (batch_of batch.now) → SpellsBatch page.new (batch_of batch.now) }
{
    put_head(page, batch);
    for (i, noted) in batch.updates.as_slice().iter().enumerate() {
        put_update(page, HEAD_BYTES + UPDATE_BYTES * i, noted);
    }
    put_zeros(
        page,
        HEAD_BYTES + UPDATE_BYTES * batch.updates.len(),
        PAGE_BYTES,
    );
}
