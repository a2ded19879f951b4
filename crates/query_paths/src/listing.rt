//! A listing: the walk, with the records of each bucket copied, and then put in order.
ghost use Rattle.std.specs.Prelude.{◌≡◌, ◌<◌, ◌≤◌, ℕ, All, IsTrue, true, length, IfOk, IfErr, OnOk};
ghost use Rattle.grid_types.specs.declared.sizes.TheConstants.{MOST_ATTRIBUTES};
ghost use Rattle.grid_types.specs.Queries.{is_lawful};
ghost use Rattle.grid_model.specs.Layouts.{Layout};
ghost use Rattle.grid_model.specs.Listings.{rows};
ghost use Rattle.grid_model.specs.Tables.{Table, pairs_of};
ghost use Rattle.query_paths.specs.Pinned.{IsPinnedTo, MakesSteps};
ghost use Rattle.query_paths.specs.Calls.{place, LeavesPlace};
ghost use Rattle.query_paths.specs.Rooms.{room_for, part_bytes, bucket_bytes};
ghost use Rattle.query_paths.specs.Paths.{AreJudged, HasQueryCause, IsFaultOrLack, pages_of_query};

use crate::gathering::Listing;
use crate::walking::{counted, walk};
use crate::{Pinned, Room};
use disk_trait::Steps;
use grid_types::{Query, Refusal, Rows};
use std::alloc::Global;
use std::sync::ledger::Ledger;

/// The records that match, in the order of their keys. Each directory part and each bucket that the query needs is read
/// once and judged, and one that is not the expected one is answered as damaged.
pub fn list_rows<const K: usize, Q: Pinned<K>, L: Ledger>(
    alloc: Global,
    pinned: &mut Q,
    query: &Query<K>,
    room: &mut Room<K>,
    steps: &mut Steps<L>,
) -> Result<Rows<K>, Refusal>
    requires few { K ≤ MOST_ATTRIBUTES }
    requires lawful { IsTrue (is_lawful query.now.sides) }
    requires within { All (λ n. n < room_for room.old) (Q.numbers pinned.old) }
    ensures answer { (L : Layout K) (t : Table)
        → IsPinnedTo (place Q.Pinned pinned.old) L t
        → IfOk result (λ r. pairs_of r ≡ rows t query.now) }
    ensures honest { (L : Layout K) (t : Table)
        → IsPinnedTo (place Q.Pinned pinned.old) L t
        → IfErr result IsFaultOrLack }
    ensures cause { HasQueryCause K true (place Q.Pinned pinned.old) query.now.sides
        (part_bytes room.new) (bucket_bytes room.new)
        (Q.faults pinned.old) (Q.faults pinned.new) result }
    ensures reads { (L : Layout K) (t : Table)
        → IsPinnedTo (place Q.Pinned pinned.old) L t
        → MakesSteps (pages_of_query L query.now) steps.old steps.new result }
    ensures judged { OnOk result (AreJudged K (place Q.Pinned pinned.old) query.now.sides) }
    ensures marks { room_for room.new ≡ room_for room.old }
    ensures same { LeavesPlace Q.Pinned pinned.old pinned.new }
{
    let _sides = counted(&query.sides);
    let mut listing = Listing {
        rows: Rows::new(alloc),
    };
    walk(pinned, query, room, &mut listing, steps)?;
    listing.rows.sort();
    Ok(listing.rows)
}
