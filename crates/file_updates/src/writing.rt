//! The new pages of an update, written on claimed pages.
ghost use Rattle.std.specs.Prelude.{◌≡◌, ◌≤◌, ◌<◌, ◌+◌, ◌^◌, ℕ, [], length, OnOk, OnErr, IfErr};
ghost use Rattle.std.specs.List.{count_by};
ghost use Rattle.grid_types.specs.declared.update.Update.{Update};
ghost use Rattle.grid_model.specs.Cells.{dims};
ghost use Rattle.grid_model.specs.Layouts.{BucketBox, Layout};
ghost use Rattle.grid_model.specs.Tables.{Table};
ghost use Rattle.history_pages.specs.NewPages.{new_pages};
ghost use Rattle.page_states.specs.States.{is_free};
ghost use Rattle.query_paths.specs.Pinned.{IsPinnedTo};
ghost use Rattle.shadow_directory.specs.Pages.{Ticks};
ghost use Rattle.shadow_directory.specs.Calls.{IsFault};
ghost use Rattle.shadow_directory.specs.Reads.{page_reads};
ghost use Rattle.file_books.specs.Effects.{IsPublishable};
ghost use Rattle.update_plans.specs.Plans.{IsPlanOf};
ghost use Rattle.grid_file.specs.Files.{with_claim};
ghost use Rattle.grid_file.specs.Keeping.{KeepsFile};
ghost use Rattle.grid_file.specs.Pages.{front_place};
ghost use Rattle.file_updates.specs.Ready.{IsReadyPlan};
ghost use Rattle.file_updates.specs.Writing.{publishing_by, CountsPages, IsGivenBack, IsWriteRefusal};

use crate::UpdateRoom;
use disk_trait::{Disk, Steps};
use grid_file::GridFile;
use grid_types::{LayoutChange, Refusal};
use query_paths::Pinned;
use shadow_directory::{NewBucket, write_change};
use std::sync::ledger::Ledger;
use update_plans::Plan;

/// Writes the new pages of a plan on the pages that are claimed, which are as many.
fn write_pages<const K: usize, D: Disk, L: Ledger>(
    file: &mut GridFile<K, D>,
    plan: &Plan<K>,
    room: &mut UpdateRoom<K>,
    steps: &mut Steps<L>,
) -> Result<(), Refusal>
    requires counts { CountsPages file.old.books plan.now }
    requires claimed { length file.old.claimed ≡ plan.now.pages }
    requires none { file.old.written ≡ [] }
    ensures written { (L : Layout K) (t : Table) (u : Update K) (e : ℕ × BucketBox K)
        → IsPinnedTo (front_place D.Disk file.old) L t
        → IsPlanOf file.old.books.shape L t u e
        room.old.first.value room.old.second.value plan.now
        → OnOk result (file.new.written ≡ new_pages L t u plan.now.note e) }
    ensures honest { (L : Layout K) (t : Table) (u : Update K) (e : ℕ × BucketBox K)
        → IsPinnedTo (front_place D.Disk file.old) L t
        → IsPlanOf file.old.books.shape L t u e
        room.old.first.value room.old.second.value plan.now
        → IfErr result IsFault }
    ensures all { OnOk result (length file.new.written ≡ length file.new.claimed) }
    ensures same { KeepsFile K D.Disk file.old file.new }
    ensures cause { IfErr result
        (IsWriteRefusal D.Disk file.old file.new room.new.parts.value.old_page) }
    ensures ticks { Ticks (page_reads (dims file.old.books.scales) plan.now.directory)
        steps.old steps.new result }
    ensures room { room.new.refined ≡ room.old.refined }
{
    let dims = file.dims();
    let (change, parts) = (&plan.directory, &mut *room.parts);
    let (first, second) = (&*room.first, &*room.second);
    let number = plan.bucket;
    match plan.note {
        LayoutChange::Plain => {
            let buckets = [NewBucket {
                number,
                page: first,
            }];
            write_change(file, &buckets, &dims, change, parts, steps)
        }
        LayoutChange::Cut { right, .. } => {
            let left = NewBucket {
                number,
                page: first,
            };
            let right = NewBucket {
                number: right,
                page: second,
            };
            write_change(file, &[left, right], &dims, change, parts, steps)
        }
        LayoutChange::Merge { with } => {
            let buckets = [NewBucket {
                number: number.min(with),
                page: first,
            }];
            write_change(file, &buckets, &dims, change, parts, steps)
        }
    }
}

/// Writes the new pages of an update on pages that are claimed for it. After a failure nothing is claimed.
pub fn write_update<const K: usize, D: Disk, L: Ledger>(
    file: &mut GridFile<K, D>,
    plan: &Plan<K>,
    room: &mut UpdateRoom<K>,
    steps: &mut Steps<L>,
) -> Result<(), Refusal>
    requires counts { CountsPages file.old.books plan.now }
    requires free { plan.now.pages ≤ count_by is_free file.old.books.pages }
    requires none { file.old.claimed ≡ [] }
    ensures written { (L : Layout K) (t : Table) (u : Update K) (e : ℕ × BucketBox K)
        → IsPinnedTo (front_place D.Disk file.old) L t
        → IsPlanOf file.old.books.shape L t u e
        room.old.first.value room.old.second.value plan.now
        → OnOk result (file.new.written ≡ new_pages L t u plan.now.note e) }
    ensures honest { (L : Layout K) (t : Table) (u : Update K) (e : ℕ × BucketBox K)
        → IsPinnedTo (front_place D.Disk file.old) L t
        → IsPlanOf file.old.books.shape L t u e
        room.old.first.value room.old.second.value plan.now
        → IfErr result IsFault }
    ensures publishable { (u : Update K)
        → IsReadyPlan file.old.books u plan.now
        → file.old.books.front + 1 < 2 ^ 63
        → OnOk result
        (IsPublishable file.new.books (publishing_by plan.now file.new.claimed)) }
    ensures all { OnOk result (length file.new.written ≡ length file.new.claimed) }
    ensures count { OnOk result (length file.new.claimed ≡ plan.now.pages) }
    ensures done { OnOk result
        (KeepsFile K D.Disk (with_claim plan.now.pages file.old) file.new) }
    ensures undone { OnErr result (IsGivenBack K D.Disk plan.now.pages file.old file.new) }
    ensures cause { IfErr result
        (IsWriteRefusal D.Disk file.old file.new room.new.parts.value.old_page) }
    ensures reads { Ticks (page_reads (dims file.old.books.scales) plan.now.directory)
        steps.old steps.new result }
    ensures room { room.new.refined ≡ room.old.refined }
{
    // The books of a file bound how many owners a change renews.
    let _state = file.state();
    file.claim(plan.pages);
    match write_pages(file, plan, room, steps) {
        Ok(()) => Ok(()),
        Err(refusal) => {
            file.give_back();
            Err(refusal)
        }
    }
}
