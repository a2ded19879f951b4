//! A plan whose new pages were written, committed.
ghost use Rattle.std.specs.Prelude.{◌≡◌, ◌<◌, ◌≤◌, ◌+◌, ◌^◌, ℕ, List, Option, OnOk, IfErr, length};
ghost use Rattle.std.specs.List.{count_by};
ghost use Rattle.grid_types.specs.declared.sizes.TheConstants.{MOST_UPDATES};
ghost use Rattle.disk_trait.specs.Calls.{Changes};
ghost use Rattle.grid_model.specs.Lawful.{IsLoggedUpdate, IsUpdateOf};
ghost use Rattle.grid_model.specs.Layouts.{BucketBox};
ghost use Rattle.grid_model.specs.Lone.{State, published};
ghost use Rattle.page_states.specs.States.{is_claimed};
ghost use Rattle.file_images.specs.Kept.{Kept};
ghost use Rattle.file_images.specs.Leads.{Standing};
ghost use Rattle.file_images.specs.Meets.{Meets};
ghost use Rattle.file_books.specs.Effects.{used_of, IsPublishable};
ghost use Rattle.file_standing.specs.Files.{IsAlone};
ghost use Rattle.file_standing.specs.Open.{IsOpenAlone};
ghost use Rattle.file_standing.specs.Steps.{with_fresh};
ghost use Rattle.commits.specs.Commits.{logged, IsCommitting};
ghost use Rattle.checkpoints.specs.Disks.{KeepsLength};
ghost use Rattle.file_updates.specs.Writing.{publishing_by};
ghost use Rattle.client_sessions.specs.Points.{after_update};
ghost use Rattle.durable_updates.specs.Answers.{GoesOn, IsMoved};
ghost use Rattle.durable_updates.specs.Carried.{IsBatchCause, IsCarried};

use disk_trait::{Disk, DiskFailed};
use file_updates::change_of;
use grid_file::GridFile;
use grid_types::{Refusal, Update};
use journal_slots::Batch;
use shadow_directory::ChangePages;
use update_plans::Plan;

/// The same update. Its type says that its key and its data have a spelling.
pub(crate) fn spelled<const K: usize>(update: &Update<K>) -> &Update<K>
    ensures same { result.now ≡ update.now }
    ensures lawful { IsUpdateOf K update.now }
{
    match update {
        Update::Put(row) => {
            let _numbers = row.key.numbers();
            let _bytes = row.value.bytes();
            update
        }
        Update::Remove(key) => {
            let _numbers = key.numbers();
            update
        }
    }
}

/// Commits a plan whose new pages were written on the claimed pages. After a failure the update is in doubt, and no page is
/// claimed.
pub(crate) fn commit_plan<const K: usize, D: Disk>(
    file: &mut GridFile<K, D>,
    update: &Update<K>,
    plan: &Plan<K>,
    batch: &mut Batch<K>,
) -> Result<(), Refusal>
    requires publishable { IsPublishable file.old.books
        (publishing_by plan.now file.old.claimed) }
    requires logged { IsLoggedUpdate (logged update.now plan.now.note) }
    requires inside { used_of file.old.books file.old.books.half
        < file.old.books.shape.slots }
    requires place { file.old.books.front + MOST_UPDATES < 2 ^ 63 }
    ensures carried { (k : Kept K) (m : Standing K) (e : ℕ × BucketBox K)
        (fresh : List (Option (List ℕ)))
        → IsCommitting file.old.books k m e update.now
        (publishing_by plan.now file.old.claimed) fresh
        → Meets D.Disk (with_fresh k fresh) file.old.disk
        → IsCarried D.Disk m e update.now plan.now.note result
        file.old.disk file.new.books file.new.disk }
    ensures alone { (k : Kept K) (m : Standing K) (e : ℕ × BucketBox K)
        (fresh : List (Option (List ℕ))) (s : State K)
        → IsCommitting file.old.books k m e update.now
        (publishing_by plan.now file.old.claimed) fresh
        → IsAlone file.old.books k m s
        → Meets D.Disk (with_fresh k fresh) file.old.disk
        → OnOk result (IsOpenAlone D.Disk file.new.books
        (after_update m update.now plan.now.note)
        (published e update.now plan.now.note s) file.new.disk) }
    ensures claims { OnOk result (count_by is_claimed file.new.books.pages
        + length file.old.claimed ≡ count_by is_claimed file.old.books.pages) }
    ensures refused { IfErr result (IsBatchCause D.Disk file.old file.new) }
    ensures moved { IsMoved file.old.books.front file.new.books.front result }
    ensures same { GoesOn file.old file.new }
    ensures changes { Changes D.Disk KeepsLength file.old.disk file.new.disk }
{
    let before = file.write_faults();
    match file.commit(update, &change_of(plan), batch) {
        Ok(()) => Ok(()),
        Err(DiskFailed) => Err(Refusal::Unsure {
            faults: file.write_faults(),
            before,
        }),
    }
}
