//! The neighbours of a bucket, by directions.
ghost use Rattle.std.specs.Prelude.{◌≡◌, ◌<◌, ◌≤◌, ◌+◌, ◌*◌, ℕ, List, Contains, IsSome, IfOk, IfErr, IfSome};
ghost use Rattle.grid_types.specs.declared.refusal.Refusal.TheVariants.{ReadFault};
ghost use Rattle.grid_types.specs.declared.sizes.TheConstants.{MOST_ATTRIBUTES};
ghost use Rattle.grid_model.specs.Layouts.{BucketBox, Layout};
ghost use Rattle.grid_model.specs.Neighbours.{directions};
ghost use Rattle.grid_model.specs.Tables.{Table};
ghost use Rattle.merge_policy.specs.Sides.{attribute_of, direction_of};
ghost use Rattle.query_paths.specs.Pinned.{IsPinnedTo};
ghost use Rattle.query_paths.specs.Calls.{place, LeavesPlace};
ghost use Rattle.merge_paths.specs.Partners.{heads_join, HasPartnerCause, IsFirstPartner, IsLosing, IsNeighbourFound, IsPartnerOn};

use bucket_page::Head;
use disk_trait::Steps;
use grid_types::{MOST_ATTRIBUTES, PAGE_BYTES, Refusal};
use merge_policy::{Direction, joinable, probe};
use query_paths::{Pinned, find_bucket};
use std::sync::ledger::Ledger;

/// Whether a bucket joins with another one once it has lost a record.
fn heads_join<const K: usize>(head: &Head<K>, other: &Head<K>, capacity: u16) -> bool
    ensures { result ≡ heads_join capacity head.now other.now }
{
    let rows = u32::from(head.count.saturating_sub(1)) + u32::from(other.count);
    head.number != other.number && joinable(&head.region, &other.region, rows, capacity)
}

/// The bucket on a side of one that loses a record, where the two join; its page is left in `beside`.
fn partner_on<const K: usize, Q: Pinned<K>, L: Ledger>(
    pinned: &mut Q,
    head: &Head<K>,
    direction: Direction,
    beside: &mut [u8; PAGE_BYTES],
    steps: &mut Steps<L>,
) -> Result<Option<Head<K>>, Refusal>
    requires few { K ≤ MOST_ATTRIBUTES }
    requires attribute { attribute_of direction < K }
    requires side { Contains (directions K) (direction_of direction) }
    ensures answer { (L : Layout K) (t : Table) (key : List ℕ) (e : ℕ × BucketBox K)
        → IsPinnedTo (place Q.Pinned pinned.old) L t
        → IsLosing (Q.shape pinned.old) L t key e head.now
        → IfOk result
        (IsPartnerOn (Q.shape pinned.old) L t key e (direction_of direction) beside.new) }
    ensures honest { (L : Layout K) (t : Table)
        → IsPinnedTo (place Q.Pinned pinned.old) L t
        → IfErr result (λ e. e ≡ ReadFault) }
    ensures expected { IfOk result
        (λ o. IfSome o (IsNeighbourFound (place Q.Pinned pinned.old) head.now beside.new)) }
    ensures cause { HasPartnerCause (place Q.Pinned pinned.old)
        (Q.faults pinned.old) (Q.faults pinned.new) head.now.region beside.new result }
    ensures least { steps.old ≤ steps.new }
    ensures most { steps.new ≤ steps.old + 2 }
    ensures same { LeavesPlace Q.Pinned pinned.old pinned.new }
{
    let Some(key) = probe(&head.region, direction) else {
        return Ok(None);
    };
    let _numbers = key.numbers();
    let capacity = pinned.capacity();
    let found = find_bucket(pinned, &key, beside, steps)?;
    if heads_join(head, &found, capacity) {
        Ok(Some(found))
    } else {
        Ok(None)
    }
}

/// With which neighbour a bucket is to be joined that loses a record: the first that joins, by directions. Its page is left in
/// `beside`, and the answer is its head. Each neighbour is found as the bucket of a key beside the bucket's region, and one
/// that is not the expected one is answered as damaged.
pub fn find_partner<const K: usize, Q: Pinned<K>, L: Ledger>(
    pinned: &mut Q,
    head: &Head<K>,
    beside: &mut [u8; PAGE_BYTES],
    steps: &mut Steps<L>,
) -> Result<Option<Head<K>>, Refusal>
    requires { K ≤ MOST_ATTRIBUTES }
    ensures answer { (L : Layout K) (t : Table) (key : List ℕ) (e : ℕ × BucketBox K)
        → IsPinnedTo (place Q.Pinned pinned.old) L t
        → IsLosing (Q.shape pinned.old) L t key e head.now
        → IfOk result (IsFirstPartner (Q.shape pinned.old) L t key e beside.new) }
    ensures honest { (L : Layout K) (t : Table)
        → IsPinnedTo (place Q.Pinned pinned.old) L t
        → IfErr result (λ e. e ≡ ReadFault) }
    ensures expected { IfOk result
        (λ o. IfSome o (IsNeighbourFound (place Q.Pinned pinned.old) head.now beside.new)) }
    ensures cause { HasPartnerCause (place Q.Pinned pinned.old)
        (Q.faults pinned.old) (Q.faults pinned.new) head.now.region beside.new result }
    ensures least { steps.old ≤ steps.new }
    ensures most { steps.new ≤ steps.old + 4 * K }
    ensures same { LeavesPlace Q.Pinned pinned.old pinned.new }
{
    for i in 0..2 * K {
        let Some(direction) = Direction::at::<K>(i) else {
            return Ok(None);
        };
        let found = partner_on(pinned, head, direction, beside, steps)?;
        if found.is_some() {
            return Ok(found);
        }
    }
    Ok(None)
}
