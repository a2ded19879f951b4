//! One step of the value, by the seat of a place.
ghost use Rattle.std.specs.Prelude.{◌≡◌};
ghost use Rattle.seat_lock.specs.Chairs.{view_of};
ghost use Rattle.seat_lock.specs.Locks.{table_of};
ghost use Rattle.seat_lock.specs.Outcomes.{Acted, MayAct, MayActAt};
ghost use Rattle.seat_lock.specs.Turns.{IsBetweenCalls, SameSeat};

use crate::chair::Chair;
use crate::lock::SeatLock;
use crate::rule::SeatOf;
use crate::stepped::Stepped;
use atomic_table::Badge;
use std::marker::Brand;
use std::mem;
use std::snapshot::Snapshot;
use std::sync::Wait;

impl<C: Stepped> SeatLock<C> {
    // Waits for the turn, makes the step in the value where it lies, and gives the turn back.
    fn act_at<R: Wait>(&self, rt: &R, seat: &mut SeatOf<C>, place: u32, event: C::Event) -> C::Reply
        requires seat { (seat.old.table_id ≡ table_of self.now) × IsBetweenCalls seat.old.me }
        requires allowed { MayActAt C.Stepped seat.old.me.0 place event }
        ensures seat { SameSeat seat.old seat.new }
        ensures rests { IsBetweenCalls seat.new.me }
        ensures acted { Acted C.Stepped seat.old.me.0 seat.new.me.0 event result }
    {
        self.take_for(rt, seat, place, &event);
        let asked = Snapshot::of(&event);
        let Some(core) = seat.slot_mut(&self.table.shared, 0) else {
            unreachable!()
        };
        let before = Snapshot::of(&*core);
        let front = core.front();
        let reply = core.step(place, event);
        let count = core.front() - front;
        self.add::<Brand>(seat, count, &before, place, &asked);
        self.hand_over(seat, place);
        reply
    }

    /// Waits until the event is enabled, and makes that one step.
    pub fn act<R: Wait>(
        &self,
        rt: &R,
        chair: &mut Chair<C::Entry, C::Part>,
        event: C::Event,
    ) -> C::Reply
        requires own { chair.old.table_id ≡ table_of self.now }
        requires allowed { MayAct C.Stepped (view_of chair.old) event }
        ensures own { chair.new.table_id ≡ chair.old.table_id }
        ensures acted { Acted C.Stepped (view_of chair.old) (view_of chair.new) event result }
    {
        let Some(place) = chair.place else {
            unreachable!()
        };
        let badge = mem::replace(&mut chair.badge, Badge::blank());
        let mut seat = badge.into_seat::<Option<C>>();
        let reply = self.act_at(rt, &mut seat, place, event);
        chair.badge = seat.into_badge();
        reply
    }
}
