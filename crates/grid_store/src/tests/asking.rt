//! What tests ask of stores.
use crate::Store;
use disk_memory::Memory;
use disk_trait::{Disk, Steps};
use file_making::make;
use grid_types::{Answer, Data, Key, Record, Refusal, Shape};
use std::alloc::{AllocError, Global};
use std::sync::ledger::Ledger;

/// What a test asks: keys of two numbers, and data of one byte.
#[derive(Clone, Copy)]
pub enum Ask {
    Put(u64, u64, u8),
    Remove(u64, u64),
    Root,
}

/// What is told: the place, and the byte that the key had.
pub type Told = Result<(u64, Option<u8>), Refusal>;

/// The first byte of data.
pub fn byte_of(value: Option<Data>) -> Option<u8> {
    match value {
        Some(data) => data.bytes().first().copied(),
        None => None,
    }
}

/// An answer as its place, and the byte that the key had.
pub fn told(answer: Result<Answer<Option<Data>>, Refusal>) -> Told {
    let answer = answer?;
    Ok((answer.at, byte_of(answer.value)))
}

/// What the store answers.
pub fn asked<D: Disk, L: Ledger>(store: &mut Store<2, D>, ask: Ask, steps: &mut Steps<L>) -> Told {
    match ask {
        Ask::Put(x, y, byte) => {
            let row = Record {
                key: Key { numbers: [x, y] },
                value: Data::new(&[byte]).unwrap_or_default(),
            };
            told(store.put(&row, steps))
        }
        Ask::Remove(x, y) => told(store.remove(&Key { numbers: [x, y] }, steps)),
        Ask::Root => Ok((store.checkpoint(steps)?, None)),
    }
}

/// A shape of two attributes and two records a bucket.
pub fn shape_of(pages: u32, slots: u32, boundaries: u32) -> Shape {
    Shape {
        k: 2,
        capacity: 2,
        pages,
        slots,
        boundaries,
        cells: 1000,
    }
}

/// A new file on a disk of so many pages.
pub fn new_file(alloc: Global, pages: u64, shape: &Shape) -> Result<Memory, AllocError> {
    let mut disk = Memory::new(alloc, pages)?;
    let _ = make(&mut disk, shape);
    Ok(disk)
}
