//! The bucket of a key: one directory page and one bucket page.
ghost use Rattle.std.specs.Prelude.{◌≡◌, ◌≤◌, ℕ, Some, IfOk, IfErr};
ghost use Rattle.grid_types.specs.declared.refusal.Refusal.TheVariants.{ReadFault};
ghost use Rattle.grid_types.specs.declared.sizes.TheConstants.{MOST_ATTRIBUTES};
ghost use Rattle.grid_model.specs.Tables.{Table};
ghost use Rattle.grid_model.specs.Layouts.{BucketBox, Layout, holder};
ghost use Rattle.query_paths.specs.Pinned.{IsPinnedTo, MakesSteps};
ghost use Rattle.query_paths.specs.Calls.{place, LeavesPlace};
ghost use Rattle.query_paths.specs.Finding.{IsBucketFound, IsBoxFound};
ghost use Rattle.query_paths.specs.Paths.{HasGetCause};

use crate::Pinned;
use crate::reading::{read_directory, read_spelled};
use bucket_page::Head;
use directory_pages::{bucket_at, part_of};
use disk_trait::Steps;
use grid_types::{Key, PAGE_BYTES, Refusal};
use std::sync::ledger::Ledger;

/// Finds the bucket that has a key, and answers its page's head. The page of the key's directory part is read into `page`,
/// and then that of the bucket that it names, which is left there; each is judged, and one that is not the expected one is
/// answered as damaged.
pub fn find_bucket<const K: usize, Q: Pinned<K>, L: Ledger>(
    pinned: &mut Q,
    key: &Key<K>,
    page: &mut [u8; PAGE_BYTES],
    steps: &mut Steps<L>,
) -> Result<Head<K>, Refusal>
    requires { K ≤ MOST_ATTRIBUTES }
    ensures answer { (L : Layout K) (t : Table) (e : ℕ × BucketBox K)
        → IsPinnedTo (place Q.Pinned pinned.old) L t
        → holder L key.now.numbers ≡ Some e
        → IfOk result
        (IsBoxFound (Q.shape pinned.old) L t key.now.numbers e page.new) }
    ensures honest { (L : Layout K) (t : Table)
        → IsPinnedTo (place Q.Pinned pinned.old) L t
        → IfErr result (λ e. e ≡ ReadFault) }
    ensures expected { IfOk result
        (IsBucketFound (place Q.Pinned pinned.old) key.now.numbers page.new) }
    ensures cause { HasGetCause K (place Q.Pinned pinned.old)
        (Q.faults pinned.old) (Q.faults pinned.new) key.now.numbers page.new result }
    ensures reads { MakesSteps 2 steps.old steps.new result }
    ensures same { LeavesPlace Q.Pinned pinned.old pinned.new }
{
    let _numbers = key.numbers();
    let (part, index) = part_of(pinned.dims().index(&pinned.cell_of(key)));
    let directory = read_directory(pinned, part, page, steps)?;
    let number = bucket_at(page, index);
    let (at, head) = read_spelled(pinned, number, directory, page, steps)?;
    if !head.region.contains(key) {
        return Err(Refusal::Damaged { page: at });
    }
    Ok(head)
}
