//! A counter with sixteen places, the least that a lock can hold. Tests share it, and the cost of a step is measured on it.
ghost use Rattle.std.specs.Prelude.{◌≡◌, ◌<◌, ℕ, [], Some, None};
ghost use Rattle.seat_lock.specs.Parts.{listing, how_many};
ghost use Rattle.seat_lock.specs.Counters.{told_count, place_count, CountsHistory};

use crate::stepped::Stepped;

/// How many places a counter has.
pub const PLACES: u32 = 16;

/// A count up to a limit, and for each place that is out the count that its seat was last told.
#[derive(Drop)]
pub struct Counter {
    pub count: u64,
    pub limit: u64,
    pub parts: [Option<u64>; 16],
}

/// What a seat may ask of it.
#[derive(Drop)]
pub enum Ask {
    /// To add one. It waits while the count is at the limit.
    Add,
    /// To wait until the count is this high.
    Reach(u64),
    /// To wait until so many places are out.
    Share(u32),
}

impl Counter {
    /// A counter at 0, of which place 0 alone is out.
    pub fn new(limit: u64) -> Counter
        ensures count { (result.count ≡ 0) × (result.limit ≡ limit) }
        ensures first { told_count result 0 ≡ Some 0 }
        ensures alone { (p : ℕ) → 0 < p → told_count result p ≡ None }
        ensures places { place_count result ≡ 16 }
        ensures counts { CountsHistory result 0 [] (listing (told_count result) 16) }
    {
        let mut parts = [None; 16];
        parts[0] = Some(0);
        Counter {
            count: 0,
            limit,
            parts,
        }
    }
}

/// How many places are out.
fn places_out(counter: &Counter) -> u32
    ensures { result ≡ how_many (told_count counter.now) (place_count counter.now) }
{
    let mut out = 0;
    for place in 0..16 {
        if counter.parts[place].is_some() {
            out += 1;
        }
    }
    out
}

impl Stepped for Counter {
    ghost use Rattle.std.specs.Prelude.{◌≡◌};
    ghost use Rattle.seat_lock.specs.Counters.{place_count, told_count, appended_by};
    ghost use Rattle.seat_lock.specs.Counters.{enabled_in, without_place};
    ghost use Rattle.seat_lock.specs.Counters.{CountsHistory, CounterDoes, CounterForks};
    ghost use Rattle.seat_lock.specs.CounterLaws.{IsNoLess, counter_laws};

    type Event = Ask;

    type Reply = u64;

    type Part = u64;

    type Entry = u32;

    ghost places = { place_count };

    ghost part_at = { told_count };

    ghost appended = { appended_by };

    ghost safe = { CountsHistory };

    ghost onward = { IsNoLess };

    ghost allowed = { λ _ _ _. Unit {0} };

    ghost is_enabled = { λ s _ event. enabled_in s event };

    ghost does = { CounterDoes };

    ghost forks = { λ s _ t r. CounterForks s t r };

    ghost joins = { λ s _ other t. t ≡ without_place s other };

    ghost idle = { λ _. Unit {0} };

    ghost front_is = { λ s. s.count };

    fn enabled(&self, seat: u32, event: &Ask) -> bool {
        match event {
            Ask::Add => self.count < self.limit,
            Ask::Reach(n) => *n <= self.count,
            Ask::Share(n) => *n == places_out(self),
        }
    }

    fn step(&mut self, seat: u32, event: Ask) -> u64 {
        if let Ask::Add = event {
            self.count += 1;
        }
        self.parts[seat as usize] = Some(self.count);
        self.count
    }

    fn front(&self) -> u64 {
        self.count
    }

    fn out(&self) -> u32 {
        places_out(self)
    }

    fn fork(&mut self, seat: u32) -> Result<u32, u64> {
        for place in 0..PLACES {
            if self.parts[place as usize].is_none() {
                self.parts[place as usize] = Some(self.count);
                return Ok(place);
            }
        }
        Err(self.count)
    }

    fn join(&mut self, seat: u32, other: u32) {
        self.parts[other as usize] = None;
    }

    ghost laws = { counter_laws };
}
