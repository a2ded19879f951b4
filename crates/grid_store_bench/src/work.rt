//! The work that is measured.
ghost use Rattle.std.specs.Prelude.{◌≡◌, ◌<◌};

use crate::asked::Asked;
use disk_trait::{Bay, Disk, Steps};
use file_commands::make_file;
use grid_store::{Store, open_store};
use grid_types::{Data, Key, Record, Shape};
use std::alloc::Global;
use std::marker::Brand;
use std::rt::Clock;
use std::sync::ledger::{Blank, Ledger};
use std::time::Instant;

/// How many attributes the files have.
const ATTRIBUTES: usize = 2;

/// The next number that is drawn: a linear congruence of 64 bits.
fn next(x: u64) -> u64 {
    x.wrapping_mul(6_364_136_223_846_793_005)
        .wrapping_add(1_442_695_040_888_963_407)
}

/// A key of two drawn numbers below a million.
fn draw(x: &mut u64) -> Key<ATTRIBUTES> {
    let mut at = [0; ATTRIBUTES];
    for number in &mut at {
        *x = next(*x);
        *number = (*x >> 33) % 1_000_000;
    }
    Key { numbers: at }
}

fn shape_of(pages: u32, slots: u32) -> Shape {
    Shape {
        k: 2,
        capacity: 48,
        pages,
        slots,
        boundaries: 1000,
        cells: 1_000_000,
    }
}

/// Puts so many records of eight bytes, and whether each was put.
fn put_many<D: Disk, L: Ledger>(
    store: &mut Store<ATTRIBUTES, D>,
    count: u32,
    seed: u64,
    steps: &mut Steps<L>,
) -> bool {
    let mut x = seed;
    for _ in 0..count {
        let key = draw(&mut x);
        let Some(value) = Data::new(&x.to_be_bytes()) else {
            return false;
        };
        if store.put(&Record { key, value }, steps).is_err() {
            return false;
        }
    }
    true
}

/// Gets as many keys, and whether each was there.
fn get_many<D: Disk, L: Ledger>(
    store: &mut Store<ATTRIBUTES, D>,
    count: u32,
    seed: u64,
    steps: &mut Steps<L>,
) -> bool {
    let mut x = seed;
    for _ in 0..count {
        let key = draw(&mut x);
        match store.get(&key, steps) {
            Ok(found) if found.value.is_some() => {}
            _ => return false,
        }
    }
    true
}

/// Opens the file on a disk, and does what is asked of it: the place at which it stands then, where all of it was done.
fn work_on<D: Disk, L: Ledger>(alloc: Global, disk: D, asked: &Asked, blank: Blank) -> Option<u64>
    requires name { blank.name ≡ L.name }
    requires parts { blank.parts ≡ L.parts }
    requires some { 0 < L.parts }
{
    let mut steps = Steps::<L>::new(blank);
    let Ok(disk) = Box::new(alloc, disk) else {
        return None;
    };
    let Ok(mut store) = open_store::<ATTRIBUTES, D, L>(alloc, disk, &mut steps) else {
        return None;
    };
    let done = match asked {
        Asked::Make { .. } => false,
        Asked::Open { .. } => true,
        Asked::Put { count, seed, .. } => put_many(&mut store, *count, *seed, &mut steps),
        Asked::Get { count, seed, .. } => get_many(&mut store, *count, *seed, &mut steps),
    };
    if done { Some(store.front()) } else { None }
}

/// Does what is asked: how many pages a file has that was made, or the place at which another one stands.
fn work<B: Bay>(alloc: Global, bay: &mut B, asked: &Asked) -> Option<u64> {
    let name = match asked {
        Asked::Make { file, pages, slots } => {
            return make_file(bay, file.as_str(), shape_of(*pages, *slots)).ok();
        }
        Asked::Put { file, .. } | Asked::Get { file, .. } | Asked::Open { file } => file,
    };
    match bay.open(name.as_str()) {
        Ok(disk) => work_on::<B::Disk, Brand>(alloc, disk, asked, Blank::new(1)),
        Err(_) => None,
    }
}

/// What came of the work, and how many microseconds it took, where all of it was done.
pub fn measure<R: Clock + AllocGlobal, B: Bay>(
    rt: &R,
    bay: &mut B,
    asked: &Asked,
) -> Option<(u64, u64)> {
    let Ok(start) = Instant::now(rt) else {
        return None;
    };
    let done = work(rt.alloc(), bay, asked)?;
    match start.elapsed(rt) {
        Ok(took) => Some((done, u64::try_from(took.as_micros()).unwrap_or(u64::MAX))),
        Err(_) => None,
    }
}
