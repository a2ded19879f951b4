//! A get: one directory page and one bucket page.
ghost use Rattle.std.specs.Prelude.{◌≡◌, ◌≤◌, ℕ, IfOk, IfErr};
ghost use Rattle.grid_types.specs.declared.refusal.Refusal.TheVariants.{ReadFault};
ghost use Rattle.grid_types.specs.declared.sizes.TheConstants.{MOST_ATTRIBUTES};
ghost use Rattle.grid_model.specs.Tables.{Table, get};
ghost use Rattle.grid_model.specs.Layouts.{Layout};
ghost use Rattle.query_paths.specs.Pinned.{IsPinnedTo, MakesSteps};
ghost use Rattle.query_paths.specs.Calls.{place, LeavesPlace};
ghost use Rattle.query_paths.specs.Paths.{IsGot, HasGetCause};

use crate::{Pinned, find_bucket};
use bucket_page::get_on;
use disk_trait::Steps;
use grid_types::{Data, Key, PAGE_BYTES, Refusal};
use std::sync::ledger::Ledger;

/// The data of a key. The page of the key's directory part is read into `page`, and then that of the bucket that it names;
/// each is judged, and one that is not the expected one is answered as damaged.
pub fn exact<const K: usize, Q: Pinned<K>, L: Ledger>(
    pinned: &mut Q,
    key: &Key<K>,
    page: &mut [u8; PAGE_BYTES],
    steps: &mut Steps<L>,
) -> Result<Option<Data>, Refusal>
    requires { K ≤ MOST_ATTRIBUTES }
    ensures answer { (L : Layout K) (t : Table)
        → IsPinnedTo (place Q.Pinned pinned.old) L t
        → IfOk result (λ v. v ≡ get t key.now.numbers) }
    ensures honest { (L : Layout K) (t : Table)
        → IsPinnedTo (place Q.Pinned pinned.old) L t
        → IfErr result (λ e. e ≡ ReadFault) }
    ensures expected { IfOk result
        (IsGot K (place Q.Pinned pinned.old) key.now.numbers page.new) }
    ensures cause { HasGetCause K (place Q.Pinned pinned.old)
        (Q.faults pinned.old) (Q.faults pinned.new) key.now.numbers page.new result }
    ensures reads { MakesSteps 2 steps.old steps.new result }
    ensures same { LeavesPlace Q.Pinned pinned.old pinned.new }
{
    let _numbers = key.numbers();
    let head = find_bucket(pinned, key, page, steps)?;
    Ok(get_on(page, head.count as usize, key))
}
