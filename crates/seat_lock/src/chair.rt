//! A seat between two calls.
use crate::view::View;
use atomic_table::Badge;
use std::marker::Model;

/// A seat of a lock, which may have a place. Its type does not name what lies in the lock, so that it can lie there too.
#[derive(Drop)]
pub struct Chair<E, P> {
    pub(crate) badge: Badge<View<E, P>>,
    pub(crate) place: Option<u32>,
}

impl<E, P> Model for Chair<E, P> {
    ghost use Rattle.seat_lock.specs.Chairs.{Sight, sight, IsResting};

    ghost Value = { Sight E P };

    ghost view = { λ c. sight c.badge.table_id c.badge.views };

    ghost invariant = { λ c. IsResting c.badge.views c.place };
}
