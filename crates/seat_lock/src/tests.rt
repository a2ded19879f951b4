ghost use Rattle.std.specs.Prelude.{◌<◌, ◌≤◌, All, IfSome};
ghost use Rattle.seat_lock.specs.Chairs.{IsSeated};
ghost use Rattle.seat_lock.specs.Locks.{table_of};

use crate::adding::{add_many, split_all};
use crate::counter::{Ask, Counter, PLACES};
use crate::{Chair, SeatLock};
use std::alloc::Global;
use std::sync::Wait;
use std::test::Fail;
use std::thread::{Threads, for_each_mut, join, join_mut, yield_now};

// Each chair adds, in a thread of its own.
fn add_each<R: Threads + Wait + Sync>(
    rt: &R,
    lock: &SeatLock<Counter>,
    chairs: &mut [Chair<u32, u64>],
    times: u32,
)
    requires { All (IsSeated (table_of lock.now)) chairs.old }
    ensures { All (IsSeated (table_of lock.now)) chairs.new }
{
    for_each_mut(
        rt,
        chairs,
        PLACES as usize,
        &|_, chair: &mut Chair<u32, u64>|
            requires { IsSeated (table_of lock.now) chair.old }
            ensures { IsSeated (table_of lock.entry.now) chair.new }
        { add_many(rt, lock, chair, times) },
    );
}

fn add_all<R: Threads + Wait + Sync>(
    rt: &R,
    lock: &SeatLock<Counter>,
    chairs: &mut Vec<Chair<u32, u64>>,
    times: u32,
)
    requires { All (IsSeated (table_of lock.now)) chairs.old.items }
    ensures { All (IsSeated (table_of lock.now)) chairs.new.items }
{
    add_each(rt, lock, chairs.as_mut_slice(), times)
}

// The chair learns from a note of the other, and takes its place back.
fn gather<R: Wait>(
    rt: &R,
    lock: &SeatLock<Counter>,
    chair: &mut Chair<u32, u64>,
    other: Chair<u32, u64>,
)
    requires chair { IsSeated (table_of lock.now) chair.old }
    requires other { IsSeated (table_of lock.now) other }
    ensures { IsSeated (table_of lock.now) chair.new }
{
    let mut other = other;
    let note = lock.note(&mut other);
    lock.learn(chair, note);
    lock.join(rt, chair, other);
}

fn gather_all<R: Wait>(
    rt: &R,
    lock: &SeatLock<Counter>,
    chair: &mut Chair<u32, u64>,
    others: Vec<Chair<u32, u64>>,
)
    requires chair { IsSeated (table_of lock.now) chair.old }
    requires others { All (IsSeated (table_of lock.now)) others.items }
    ensures { IsSeated (table_of lock.now) chair.new }
{
    let mut others = others;
    for _ in 0..others.len() {
        let Some(other) = others.pop() else {
            break;
        };
        gather(rt, lock, chair, other);
    }
}

// So many seats add a thousand each, and one of them has the sum at the end.
fn sum_of<R: Threads + Wait + Sync>(rt: &R, alloc: Global, seats: u32) -> Option<u64>
    requires { 0 < seats }
{
    let Ok((lock, mut chair)) = SeatLock::open(alloc, Counter::new(1_000_000), PLACES) else {
        return None;
    };
    let Ok(mut others) = split_all(rt, &lock, alloc, &mut chair, seats - 1) else {
        return None;
    };
    if others.len() < (seats - 1) as usize {
        return None;
    }
    add_all(rt, &lock, &mut others, 500);
    add_many(rt, &lock, &mut chair, 500);
    let note = lock.note(&mut chair);
    lock.learn(&mut chair, note);
    add_all(rt, &lock, &mut others, 500);
    add_many(rt, &lock, &mut chair, 500);
    gather_all(rt, &lock, &mut chair, others);
    match lock.close(rt, chair) {
        Ok(counter) => Some(counter.count),
        Err(_) => None,
    }
}

#[test]
fn seats_add_up(rt: HostRuntime) -> Result<(), Fail> {
    assert!(&rt; sum_of(&rt, rt.alloc(), 2) == Some(2_000));
    assert!(&rt; sum_of(&rt, rt.alloc(), 16) == Some(16_000));
    // No place is left for a seventeenth.
    assert!(&rt; sum_of(&rt, rt.alloc(), 17).is_none());
    Ok(())
}

// Waits for every other count, and adds one then.
fn take_turns<R: Wait>(
    rt: &R,
    lock: &SeatLock<Counter>,
    chair: &mut Chair<u32, u64>,
    first: u32,
    times: u32,
)
    requires seated { IsSeated (table_of lock.now) chair.old }
    requires small { (first ≤ 1) × (times ≤ 1000) }
    ensures { IsSeated (table_of lock.now) chair.new }
{
    for k in 0..times {
        lock.act(rt, chair, Ask::Reach(u64::from(2 * k + first)));
        lock.act(rt, chair, Ask::Add);
    }
}

#[test]
fn seats_wait_for_each_other(rt: HostRuntime) -> Result<(), Fail> {
    let Ok((lock, mut one)) = SeatLock::open(rt.alloc(), Counter::new(1_000_000), PLACES) else {
        panic!(&rt; "there is memory")
    };
    let Ok(mut two) = lock.split(&rt, &mut one) else {
        panic!(&rt; "a place is free")
    };
    let shared = &lock;
    join_mut(
        &rt,
        &mut || take_turns(&rt, shared, &mut one, 0, 1_000),
        &mut || take_turns(&rt, shared, &mut two, 1, 1_000),
    );
    let Err(refused) = lock.close(&rt, one) else {
        panic!(&rt; "two places are out")
    };
    assert!(&rt; refused.out == 2);
    Ok(())
}

// Waits until a seat waits for a change, and answers the word that it looks at.
fn see_waiting<R: Wait>(rt: &R, lock: &SeatLock<Counter>) -> u64 {
    for _ in rt.forever() {
        let word = lock.table.shared.peek(2);
        if word % 2 == 1 {
            return word;
        }
        yield_now();
    }
    unreachable!()
}

fn wait_for<R: Wait>(rt: &R, lock: &SeatLock<Counter>, chair: Chair<u32, u64>, event: Ask)
    requires { IsSeated (table_of lock.now) chair }
{
    let mut chair = chair;
    lock.act(rt, &mut chair, event);
}

// Whether the word is another by now. Where it is not, an addition wakes the seat that waits.
fn is_other<R: Wait>(rt: &R, lock: &SeatLock<Counter>, chair: Chair<u32, u64>, word: u64) -> bool
    requires { IsSeated (table_of lock.now) chair }
{
    let changed = lock.table.shared.peek(2) != word;
    if !changed {
        wait_for(rt, lock, chair, Ask::Add);
    }
    changed
}

// While a seat waits, joins the other one or, where there is none, splits. Whether that changes the word that it looks at.
fn wakes<R: Wait>(
    rt: &R,
    lock: &SeatLock<Counter>,
    chair: Chair<u32, u64>,
    other: Option<Chair<u32, u64>>,
) -> bool
    requires chair { IsSeated (table_of lock.now) chair }
    requires other { IfSome other (IsSeated (table_of lock.now)) }
{
    let mut chair = chair;
    let word = see_waiting(rt, lock);
    if let Some(other) = other {
        lock.join(rt, &mut chair, other);
        return is_other(rt, lock, chair, word);
    }
    let Ok(_) = lock.split(rt, &mut chair) else {
        return false;
    };
    is_other(rt, lock, chair, word)
}

// One seat waits until this number of places is out, and a second joins the third or splits. Whether that wakes it.
fn is_woken<R: Threads + Wait + Sync>(
    rt: &R,
    lock: &SeatLock<Counter>,
    one: Chair<u32, u64>,
    places: u32,
    two: Chair<u32, u64>,
    three: Option<Chair<u32, u64>>,
) -> bool
    requires one { IsSeated (table_of lock.now) one }
    requires two { IsSeated (table_of lock.now) two }
    requires three { IfSome three (IsSeated (table_of lock.now)) }
{
    let wait = move ||
        requires { IsSeated (table_of lock.now) one }
    { wait_for(rt, lock, one, Ask::Share(places)) };
    let wake = move || -> bool
        requires two { IsSeated (table_of lock.now) two }
        requires three { IfSome three (IsSeated (table_of lock.now)) }
    { wakes(rt, lock, two, three) };
    join(rt, wait, wake).1
}

// Three seats, of which the first waits for another number of places.
fn is_noticed<R: Threads + Wait + Sync>(rt: &R, alloc: Global, joins: bool) -> bool {
    let Ok((lock, mut one)) = SeatLock::open(alloc, Counter::new(1), PLACES) else {
        return false;
    };
    let Ok(two) = lock.split(rt, &mut one) else {
        return false;
    };
    if joins {
        let Ok(three) = lock.split(rt, &mut one) else {
            return false;
        };
        is_woken(rt, &lock, one, 2, two, Some(three))
    } else {
        is_woken(rt, &lock, one, 3, two, None)
    }
}

#[test]
fn a_join_wakes_a_seat_that_waits(rt: HostRuntime) -> Result<(), Fail> {
    assert!(&rt; is_noticed(&rt, rt.alloc(), true));
    Ok(())
}

#[test]
fn a_split_wakes_a_seat_that_waits(rt: HostRuntime) -> Result<(), Fail> {
    assert!(&rt; is_noticed(&rt, rt.alloc(), false));
    Ok(())
}
