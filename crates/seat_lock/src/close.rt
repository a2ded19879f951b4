//! The end of a lock.
ghost use Rattle.std.specs.Prelude.{◌≡◌, ◌<◌, ℕ, Some, IfOk, IfErr};
ghost use Rattle.seat_lock.specs.Chairs.{view_of, HasPlace};
ghost use Rattle.seat_lock.specs.Locks.{table_of, seat_count};
ghost use Rattle.seat_lock.specs.Outcomes.{Closed, StillShared};
ghost use Rattle.seat_lock.specs.Parts.{how_many};
ghost use Rattle.seat_lock.specs.Plays.{Carries};
ghost use Rattle.seat_lock.specs.Turns.{IsBetweenCalls, SameSeat, Becomes};

use crate::chair::Chair;
use crate::lock::SeatLock;
use crate::rule::SeatOf;
use crate::stepped::Stepped;
use std::sync::Wait;

/// More than one place is out, and these are how many.
#[derive(Drop)]
pub struct NotClosed<C: Stepped> {
    pub lock: SeatLock<C>,
    pub chair: Chair<C::Entry, C::Part>,
    pub out: u32,
}

impl<C: Stepped> SeatLock<C> {
    // How many places are out in the value that the seat has.
    fn finds_out(&self, seat: &mut SeatOf<C>) -> u32
        requires seat { seat.old.table_id ≡ table_of self.now }
        requires value { (core : C) × Carries seat.old.me core }
        ensures seat { Becomes seat.old seat.new seat.old.me }
        ensures found { (core : C) → Carries seat.old.me core
            → result ≡ how_many (C.part_at core) (C.places core) }
    {
        let Some(core) = seat.slot_mut(&self.table.shared, 0) else {
            unreachable!()
        };
        core.out()
    }

    // Takes the value out for good, or gives it back where more than one place is out, and tells how many are.
    fn take_out<R: Wait>(&self, rt: &R, seat: &mut SeatOf<C>) -> Result<C, u32>
        requires seat { (seat.old.table_id ≡ table_of self.now) × IsBetweenCalls seat.old.me }
        requires place { (p : ℕ) × (x : C.Part) × (seat.old.me.0.seat ≡ Some (p, x)) }
        ensures seat { SameSeat seat.old seat.new }
        ensures closed { IfOk result (λ core. Closed C.Stepped core seat.old.me.0) }
        ensures rests { IfErr result (λ out. (1 < out) × IsBetweenCalls seat.new.me) }
        ensures shared { IfErr result (StillShared C.Stepped seat.old.me.0 seat.new.me.0) }
    {
        self.take(rt, seat);
        let out = self.finds_out(seat);
        let shared = out > 1;
        if shared {
            self.put_back(seat);
            return Err(out);
        }
        let Some(core) = self.table.shared.exchange(seat, 0, None) else {
            unreachable!()
        };
        Ok(core)
    }

    /// Takes the value out of the lock for good where the chair's place alone is out, and is refused exactly where more places are.
    pub fn close<R: Wait>(self, rt: &R, chair: Chair<C::Entry, C::Part>) -> Result<C, NotClosed<C>>
    where
        C: Drop,
        requires own { chair.table_id ≡ table_of self }
        requires place { HasPlace chair }
        ensures closed { IfOk result (λ core. Closed C.Stepped core (view_of chair)) }
        ensures out { IfErr result (λ r. 1 < r.out) }
        ensures shared { IfErr result
            (λ r. StillShared C.Stepped (view_of chair) (view_of r.chair) r.out) }
        ensures lock { IfErr result
            (λ r. (table_of r.lock ≡ table_of self) × (seat_count r.lock ≡ seat_count self)) }
        ensures chair { IfErr result (λ r. r.chair.table_id ≡ chair.table_id) }
    {
        let Chair { badge, place } = chair;
        let mut seat = badge.into_seat::<Option<C>>();
        match self.take_out(rt, &mut seat) {
            Ok(core) => Ok(core),
            Err(out) => {
                let chair = Chair {
                    badge: seat.into_badge(),
                    place,
                };
                Err(NotClosed {
                    lock: self,
                    chair,
                    out,
                })
            }
        }
    }
}
