//! Telling another seat what one has seen. No call here waits.
ghost use Rattle.std.specs.Prelude.{◌≡◌, List, None};
ghost use Rattle.seat_lock.specs.Chairs.{note_of, seeing};
ghost use Rattle.seat_lock.specs.Locks.{table_of};
ghost use Rattle.seat_lock.specs.Parts.{Begins};

use crate::chair::Chair;
use crate::lock::SeatLock;
use crate::rule::{Look, Note};
use crate::stepped::Stepped;
use atomic_table::Badge;
use std::marker::Brand;
use std::mem;

impl<C: Stepped> SeatLock<C> {
    /// A chair without a place, which has seen as much. It can go to another thread, whose chair learns from it.
    pub fn note(&self, chair: &mut Chair<C::Entry, C::Part>) -> Chair<C::Entry, C::Part>
        requires { chair.old.table_id ≡ table_of self.now }
        ensures same { chair.new ≡ chair.old }
        ensures note { result ≡ note_of chair.old }
    {
        let badge = mem::replace(&mut chair.badge, Badge::blank());
        let mut seat = badge.into_seat::<Option<C>>();
        let other = self.table.shared.split_seat::<Note>(&mut seat);
        chair.badge = seat.into_badge();
        Chair {
            badge: other.into_badge(),
            place: None,
        }
    }

    /// Sees all of the history so far, which begins with what the chair had seen, and with what the note has.
    pub fn learn(&self, chair: &mut Chair<C::Entry, C::Part>, note: Chair<C::Entry, C::Part>)
        requires own { chair.old.table_id ≡ table_of self.now }
        requires own_note { note.table_id ≡ table_of self.now }
        requires note { note.seat ≡ None }
        ensures { (history : List C.Entry) × Begins chair.old.seen history
            × Begins note.seen history × (chair.new ≡ seeing chair.old history) }
    {
        let Chair {
            badge: told,
            place: _,
        } = note;
        let badge = mem::replace(&mut chair.badge, Badge::blank());
        let mut seat = badge.into_seat::<Option<C>>();
        let other = told.into_seat::<Option<C>>();
        self.absorb::<Brand>(&mut seat, other);
        self.table.shared.load::<Look>(&mut seat, 0);
        chair.badge = seat.into_badge();
    }
}
