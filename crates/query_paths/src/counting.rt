//! A count: the walk, with the records of each bucket counted where they lie.
ghost use Rattle.std.specs.Prelude.{◌≡◌, ◌<◌, ◌≤◌, ℕ, All, IsTrue, false, length, IfOk, IfErr, OnOk};
ghost use Rattle.grid_types.specs.declared.refusal.Refusal.TheVariants.{ReadFault};
ghost use Rattle.grid_types.specs.declared.sizes.TheConstants.{MOST_ATTRIBUTES};
ghost use Rattle.grid_types.specs.Queries.{is_lawful};
ghost use Rattle.grid_model.specs.Layouts.{Layout};
ghost use Rattle.grid_model.specs.Listings.{rows};
ghost use Rattle.grid_model.specs.Tables.{Table};
ghost use Rattle.query_paths.specs.Pinned.{IsPinnedTo, MakesSteps};
ghost use Rattle.query_paths.specs.Calls.{place, LeavesPlace};
ghost use Rattle.query_paths.specs.Rooms.{room_for, part_bytes, bucket_bytes};
ghost use Rattle.query_paths.specs.Paths.{AreJudged, HasQueryCause, pages_of_query};

use crate::gathering::Tally;
use crate::walking::{counted, walk};
use crate::{Pinned, Room};
use disk_trait::Steps;
use grid_types::{Query, Refusal};
use std::sync::ledger::Ledger;

/// How many records match. Each directory part and each bucket that the query needs is read once and judged, and one that
/// is not the expected one is answered as damaged.
pub fn count_rows<const K: usize, Q: Pinned<K>, L: Ledger>(
    pinned: &mut Q,
    query: &Query<K>,
    room: &mut Room<K>,
    steps: &mut Steps<L>,
) -> Result<u64, Refusal>
    requires few { K ≤ MOST_ATTRIBUTES }
    requires lawful { IsTrue (is_lawful query.now.sides) }
    requires within { All (λ n. n < room_for room.old) (Q.numbers pinned.old) }
    ensures answer { (L : Layout K) (t : Table)
        → IsPinnedTo (place Q.Pinned pinned.old) L t
        → IfOk result (λ n. n ≡ length (rows t query.now)) }
    ensures honest { (L : Layout K) (t : Table)
        → IsPinnedTo (place Q.Pinned pinned.old) L t
        → IfErr result (λ e. e ≡ ReadFault) }
    ensures cause { HasQueryCause K false (place Q.Pinned pinned.old) query.now.sides
        (part_bytes room.new) (bucket_bytes room.new)
        (Q.faults pinned.old) (Q.faults pinned.new) result }
    ensures reads { (L : Layout K) (t : Table)
        → IsPinnedTo (place Q.Pinned pinned.old) L t
        → MakesSteps (pages_of_query L query.now) steps.old steps.new result }
    ensures judged { OnOk result (AreJudged K (place Q.Pinned pinned.old) query.now.sides) }
    ensures marks { room_for room.new ≡ room_for room.old }
    ensures same { LeavesPlace Q.Pinned pinned.old pinned.new }
{
    let _sides = counted(&query.sides);
    let mut tally = Tally { rows: 0 };
    walk(pinned, query, room, &mut tally, steps)?;
    Ok(tally.rows)
}
