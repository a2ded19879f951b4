//! Steps of a counter in the seat lock by many threads at once, to be measured.
//!
//! `seat_lock_bench THREADS ACTS` lets so many threads make so many steps each, and prints the count that they leave. With a third word
//! it tells on the error stream when each thread ended, in microseconds from the common start.
#![tactic(auto)]

mod workload;

ghost use Rattle.seat_lock.specs.Chairs.{IsSeated};
ghost use Rattle.seat_lock.specs.Locks.{table_of};

use seat_lock::adding::{add_many, split_all};
use seat_lock::counter::{Ask, Counter, PLACES};
use seat_lock::{Chair, SeatLock};
use std::alloc::Global;
use std::io;
use std::process::ExitCode;
use std::rt::Clock;
use std::sync::Wait;
use std::thread::{Threads, map_vec};
use std::time::Instant;
use workload::{Workload, read_workload};

/// Makes so many steps, and tells how many microseconds have gone since the start.
fn run_one<R: Wait + Clock>(
    rt: &R,
    lock: &SeatLock<Counter>,
    chair: Chair<u32, u64>,
    acts: u32,
    start: &Instant,
) -> u64
    requires { IsSeated (table_of lock.now) chair }
{
    let mut chair = chair;
    add_many(rt, lock, &mut chair, acts);
    match start.elapsed(rt) {
        Ok(took) => u64::try_from(took.as_micros()).unwrap_or(u64::MAX),
        Err(_) => 0,
    }
}

/// The count at the end, and when each thread ended. None where there is no memory, no clock, or no place for so many threads.
fn measure<R: Threads + Wait + Clock + Sync>(
    rt: &R,
    alloc: Global,
    load: &Workload,
) -> Option<(u64, Vec<u64>)> {
    let Ok((lock, mut chair)) = SeatLock::open(alloc, Counter::new(u64::MAX), PLACES) else {
        return None;
    };
    let chairs = split_all(rt, &lock, alloc, &mut chair, load.threads).ok()?;
    if chairs.len() < load.threads as usize {
        return None;
    }
    let acts = load.acts;
    let Ok(start) = Instant::now(rt) else {
        return None;
    };
    let shared = &lock;
    let Ok(ended) = map_vec(
        rt,
        chairs,
        &|chair: Chair<u32, u64>| -> u64
            requires { IsSeated (table_of shared.now) chair }
        { run_one(rt, shared, chair, acts, &start) },
    ) else {
        return None;
    };
    let count = lock.act(rt, &mut chair, Ask::Reach(0));
    Some((count, ended))
}

fn tell(rt: HostRuntime, ended: &[u64]) -> io::Result<()> {
    for at in ended {
        eprintln!(rt; "ended at {at} us")?;
    }
    Ok(())
}

fn main(rt: HostRuntime) -> ExitCode {
    let Some(load) = read_workload(&rt) else {
        return ExitCode::from(2);
    };
    let Some((count, ended)) = measure(&rt, rt.alloc(), &load) else {
        return ExitCode::from(6);
    };
    if load.told && tell(rt, ended.as_slice()).is_err() {
        return ExitCode::from(5);
    }
    if println!(rt; "{count}").is_err() {
        return ExitCode::from(5);
    }
    ExitCode::from(0)
}
