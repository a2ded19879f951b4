//! The batches that join the root, one after the other.
ghost use Rattle.std.specs.Prelude.{◌≡◌, ◌<◌, ◌≤◌, ◌+◌, ◌↔◌, ◌^◌, flat_map, map, length, slice_index_or, slice_set, All, Contains, IsTrue, IfSome, IfNone, IfOk};
ghost use Rattle.grid_types.specs.declared.sizes.TheConstants.{MOST_ATTRIBUTES};
ghost use Rattle.grid_model.specs.Images.{Join};
ghost use Rattle.journal_slots.specs.Batches.{batch_of};
ghost use Rattle.recovery.specs.Joins.{empty_batch, AreLawfulOrEmpty, LeadsOn, IsFirstOn, NoneLeadsOn};

use crate::joined::Joined;
use arrayvec::ArrayVec;
use journal_slots::{Batch, Batches};
use std::alloc::{AllocError, Global};
use std::mem;

/// No update has this place or a later one.
const END: u64 = 1 << 63;

/// Whether a batch leads on from a place.
fn leads_on<const K: usize>(batch: &Batch<K>, place: u64) -> bool
    requires { place < 2 ^ 63 }
    ensures { IsTrue result ↔ LeadsOn place (batch_of batch.now) }
{
    batch.first == place + 1
        && !batch.updates.is_empty()
        && (batch.updates.len() as u64) < END - place
}

/// The first batch of a list that leads on from a place.
fn first_on<const K: usize>(batches: &[Batch<K>], place: u64) -> Option<usize>
    requires { place < 2 ^ 63 }
    ensures found { IfSome result (IsFirstOn (map batch_of batches.now) place) }
    ensures none { IfNone result (NoneLeadsOn (map batch_of batches.now) place) }
{
    for (i, batch) in batches.iter().enumerate() {
        if leads_on(batch, place) {
            return Some(i);
        }
    }
    None
}

/// Takes a batch out of a list; an empty one stands there then, so that the others keep their order.
fn take_out<const K: usize>(batches: &mut Vec<Batch<K>>, i: usize) -> Batch<K>
    requires { i < length batches.old.items }
    ensures taken { batch_of result
        ≡ slice_index_or (map batch_of batches.old.items) i empty_batch }
    ensures left { map batch_of batches.new.items
        ≡ slice_set (map batch_of batches.old.items) i empty_batch }
{
    let empty = Batch {
        session: 0,
        first: 0,
        updates: ArrayVec::new(),
    };
    mem::replace(&mut batches[i], empty)
}

/// Takes the batches that join a place without a gap: the first of the list that begins with the next place, and so on. Its
/// only error is want of memory.
pub fn join<const K: usize>(
    alloc: Global,
    batches: Batches<K>,
    front: u64,
) -> Result<Joined<K>, AllocError>
    requires few { K ≤ MOST_ATTRIBUTES }
    requires front { front < 2 ^ 63 }
    ensures joined { AreLawfulOrEmpty batches.entry
        → IfOk result (λ j. Join batches.entry front j.taken j.front) }
    ensures among { IfOk result (λ j. All (Contains batches.entry) j.taken) }
    ensures count { IfOk result (λ j.
        j.front ≡ front + length (flat_map (λ b. b.updates) j.taken)) }
    ensures small { IfOk result (λ j. j.front < 2 ^ 63) }
{
    let mut left = batches.into_list();
    let mut taken = Vec::new(alloc);
    let mut place = front;
    while let Some(i) = first_on(&left, place) {
        let batch = take_out(&mut left, i);
        place += batch.updates.len() as u64;
        taken.push(batch)?;
    }
    Ok(Joined {
        taken: Batches::of(taken),
        front: place,
    })
}
