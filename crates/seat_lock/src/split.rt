//! A fork of the value, whose new place goes to a new chair.
ghost use Rattle.std.specs.Prelude.{◌≡◌, ◌<◌, ℕ, [], Some, IfOk, IfErr, Err};
ghost use Rattle.seat_lock.specs.Chairs.{view_of, HasPlace};
ghost use Rattle.seat_lock.specs.Locks.{table_of};
ghost use Rattle.seat_lock.specs.Outcomes.{ForkAnswered, SplitOff};
ghost use Rattle.seat_lock.specs.Turns.{IsBetweenCalls, SameSeat, Becomes, MayGiveAway};
ghost use Rattle.seat_lock.specs.Views.{resting_view, seat_at, with_note};

use crate::chair::Chair;
use crate::lock::SeatLock;
use crate::rule::{Cut, Grants, SeatOf};
use crate::stepped::Stepped;
use atomic_table::Badge;
use std::marker::Brand;
use std::mem;
use std::snapshot::Snapshot;
use std::sync::Wait;

impl<C: Stepped> SeatLock<C> {
    // The seat with the turn gives the new place to a new seat.
    fn cut<J: Grants<C::Part>>(
        &self,
        seat: &mut SeatOf<C>,
        place: u32,
        after: &Snapshot<C>,
    ) -> SeatOf<C>
        requires seat { seat.old.table_id ≡ table_of self.now }
        requires given { (J.place ≡ place) × (J.given ≡ C.part_at after.now.value place) }
        requires free { MayGiveAway seat.old.me.0 place (C.part_at after.now.value place) }
        ensures seat { Becomes seat.old seat.new
            (with_note place (C.part_at after.now.value place) seat.old.me.0, seat.old.me.1) }
        ensures table { result.table_id ≡ seat.old.table_id }
        ensures new { result.me ≡ (
          resting_view seat.old.me.0.from seat.old.me.0.seen
              (seat_at place (C.part_at after.now.value place)),
          [],
        ) }
    {
        self.table.shared.split_seat::<Cut<J>>(seat)
    }

    // Waits for the turn, makes the fork in the value where it lies, and gives the turn back.
    fn split_at<R: Wait>(
        &self,
        rt: &R,
        seat: &mut SeatOf<C>,
        place: u32,
    ) -> Result<(SeatOf<C>, u32), C::Reply>
        requires seat { (seat.old.table_id ≡ table_of self.now) × IsBetweenCalls seat.old.me }
        requires place { (x : C.Part) × (seat.old.me.0.seat ≡ Some (place, x)) }
        ensures seat { SameSeat seat.old seat.new }
        ensures rests { IsBetweenCalls seat.new.me }
        ensures other { IfOk result
            (λ r. (r.0.table_id ≡ seat.old.table_id) × IsBetweenCalls r.0.me) }
        ensures ok { IfOk result
            (λ r. SplitOff C.Stepped seat.old.me.0 seat.new.me.0 r.0.me.0 r.1) }
        ensures err { IfErr result
            (λ r. ForkAnswered C.Stepped seat.old.me.0 seat.new.me.0 (Err r)) }
    {
        self.take(rt, seat);
        let Some(core) = seat.slot_mut(&self.table.shared, 0) else {
            unreachable!()
        };
        let answer = core.fork(place);
        let after = Snapshot::of(&*core);
        match answer {
            Ok(new) => {
                let other = self.cut::<Brand>(seat, new, &after);
                self.hand_over(seat, place);
                Ok((other, new))
            }
            Err(reply) => {
                self.hand_over(seat, place);
                Err(reply)
            }
        }
    }

    /// Makes a fork of the value, and gives the new place to a new chair; or is refused exactly where the fork is.
    pub fn split<R: Wait>(
        &self,
        rt: &R,
        chair: &mut Chair<C::Entry, C::Part>,
    ) -> Result<Chair<C::Entry, C::Part>, C::Reply>
        requires own { chair.old.table_id ≡ table_of self.now }
        requires place { HasPlace chair.old }
        ensures own { chair.new.table_id ≡ chair.old.table_id }
        ensures other { IfOk result (λ other. other.table_id ≡ chair.old.table_id) }
        ensures ok { IfOk result (λ other. (new : ℕ)
            × SplitOff C.Stepped (view_of chair.old) (view_of chair.new) (view_of other) new) }
        ensures err { IfErr result
            (λ r. ForkAnswered C.Stepped (view_of chair.old) (view_of chair.new) (Err r)) }
    {
        let Some(place) = chair.place else {
            unreachable!()
        };
        let badge = mem::replace(&mut chair.badge, Badge::blank());
        let mut seat = badge.into_seat::<Option<C>>();
        match self.split_at(rt, &mut seat, place) {
            Ok((other, new)) => {
                chair.badge = seat.into_badge();
                Ok(Chair {
                    badge: other.into_badge(),
                    place: Some(new),
                })
            }
            Err(reply) => {
                chair.badge = seat.into_badge();
                Err(reply)
            }
        }
    }
}
