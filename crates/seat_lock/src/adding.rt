//! Runs on a counter in a lock, which the tests and the program that measures the lock share.
ghost use Rattle.std.specs.Prelude.{◌+◌, ◌<◌, ◌≤◌, length, vec_len, All, IfOk};
ghost use Rattle.seat_lock.specs.Chairs.{view_of, IsSeated};
ghost use Rattle.seat_lock.specs.Locks.{table_of};
ghost use Rattle.seat_lock.specs.Outcomes.{WasRefused};

use crate::chair::Chair;
use crate::counter::{Ask, Counter};
use crate::lock::SeatLock;
use crate::stepped::Stepped;
use std::alloc::{AllocError, Global};
use std::sync::Wait;

/// Makes so many additions.
pub fn add_many<R: Wait>(rt: &R, lock: &SeatLock<Counter>, chair: &mut Chair<u32, u64>, times: u32)
    requires { IsSeated (table_of lock.now) chair.old }
    ensures seated { IsSeated (table_of lock.now) chair.new }
    ensures added { length chair.old.seen + times ≤ length chair.new.seen }
{
    for done in 0..times {
        lock.act(rt, chair, Ask::Add);
    }
}

/// So many new chairs, or as many as there was a place for.
pub fn split_all<R: Wait>(
    rt: &R,
    lock: &SeatLock<Counter>,
    alloc: Global,
    chair: &mut Chair<u32, u64>,
    count: u32,
) -> Result<Vec<Chair<u32, u64>>, AllocError>
    requires { IsSeated (table_of lock.now) chair.old }
    ensures chair { IsSeated (table_of lock.now) chair.new }
    ensures others { IfOk result (λ others. All (IsSeated (table_of lock.now)) others.items) }
    ensures most { IfOk result (λ others. vec_len others ≤ count) }
    ensures fewer { IfOk result (λ others. vec_len others < count
        → WasRefused ⟦<Counter as Stepped>⟧ (view_of chair.new)) }
{
    let mut others = Vec::new(alloc);
    for made in 0..count {
        let Ok(other) = lock.split(rt, chair) else {
            return Ok(others);
        };
        others.push(other)?;
    }
    Ok(others)
}
