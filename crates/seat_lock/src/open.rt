//! The start of a lock.
ghost use Rattle.std.specs.Prelude.{◌≡◌, ◌<◌, [], IfOk, IfErr};
ghost use Rattle.seat_lock.specs.Locks.{table_of, seat_count};
ghost use Rattle.seat_lock.specs.Parts.{IsOut};
ghost use Rattle.seat_lock.specs.Rule.{IsSafeAtFirst};
ghost use Rattle.seat_lock.specs.Views.{seat_at};

use crate::chair::Chair;
use crate::lock::SeatLock;
use crate::stepped::Stepped;
use atomic_table::{Refused, Table};
use std::alloc::Global;
use std::snapshot::Snapshot;

/// There was no memory for the lock. The value comes back.
#[derive(Drop)]
pub struct NotOpened<C> {
    pub core: C,
}

impl<C: Stepped> SeatLock<C> {
    /// A lock round a value with this many places, which is safe for a history without entries, and a chair on place 0.
    pub fn open(
        alloc: Global,
        core: C,
        seats: u32,
    ) -> Result<(SeatLock<C>, Chair<C::Entry, C::Part>), NotOpened<C>>
        requires seats { (seats ≡ C.places core) × (0 < seats) }
        requires place { IsOut C.part_at core 0 }
        requires safe { IsSafeAtFirst C.Stepped core }
        ensures own { IfOk result (λ t. t.1.table_id ≡ table_of t.0) }
        ensures seats { IfOk result (λ t. seat_count t.0 ≡ seats) }
        ensures seen { IfOk result (λ t. (t.1.from ≡ C.front_is core) × (t.1.seen ≡ [])) }
        ensures seat { IfOk result (λ t. t.1.seat ≡ seat_at 0 (C.part_at core 0)) }
        ensures err { IfErr result (λ r. r.core ≡ core) }
    {
        let about = Snapshot::of(&core);
        let words = [core.front(), 0, 0];
        let Ok(mut slots) = Vec::with_capacity(alloc, 1) else {
            return Err(NotOpened { core });
        };
        slots.push_reserved(Some(core));
        match Table::new(alloc, &words, slots, &about) {
            Ok((table, seat)) => {
                let chair = Chair {
                    badge: seat.into_badge(),
                    place: Some(0),
                };
                Ok((SeatLock { table, seats }, chair))
            }
            Err(refused) => {
                let Refused { mut slots } = refused;
                let first = slots.pop();
                slots.destroy_empty();
                let Some(Some(core)) = first else {
                    unreachable!()
                };
                Err(NotOpened { core })
            }
        }
    }
}
