//! One update is committed: its batch on the next slot, and then its change in the books.
ghost use Rattle.std.specs.Prelude.{◌≡◌, ◌<◌, ◌≤◌, ◌+◌, ◌*◌, ◌^◌, ℕ, List, Option, OnOk, OnErr};
ghost use Rattle.grid_types.specs.declared.sizes.TheConstants.{MOST_UPDATES, PAGE_BYTES};
ghost use Rattle.grid_types.specs.Shapes.{file_pages};
ghost use Rattle.disk_trait.specs.Calls.{Changes, IsSynced};
ghost use Rattle.disk_trait.specs.Causes.{HasCause};
ghost use Rattle.grid_model.specs.Lawful.{IsLoggedUpdate};
ghost use Rattle.grid_model.specs.Layouts.{BucketBox};
ghost use Rattle.grid_model.specs.Lone.{State, published};
ghost use Rattle.journal_slots.specs.Committing.{BatchStep};
ghost use Rattle.file_images.specs.Kept.{Kept};
ghost use Rattle.file_images.specs.Leads.{Standing, behind};
ghost use Rattle.file_images.specs.Meets.{Meets};
ghost use Rattle.file_books.specs.Effects.{published_books, committed_books, used_of, IsPublishable};
ghost use Rattle.file_state.specs.Memories.{publishing_of};
ghost use Rattle.file_standing.specs.Files.{IsAlone};
ghost use Rattle.file_standing.specs.Open.{IsOpenInSession, IsOpenAlone};
ghost use Rattle.file_standing.specs.Steps.{batch_of_one, with_fresh};
ghost use Rattle.commits.specs.Commits.{logged, IsCommitting, StaysOrMoves, IsDoubtful};

use crate::one_update::place_one;
use disk_trait::{Disk, DiskFailed};
use file_state::{Change, FileState};
use grid_types::Update;
use journal_slots::Batch;

/// Commits one update, whose new pages were written, and publishes its change at the next place. These pages need not be
/// synced: they are on the disk before the batch counts. `slot` is the next one of the current half. `batch` is room, and
/// is overwritten. After a failure the books are as they were, and whether the update counts is in doubt until the file is
/// opened again.
pub fn commit_update<const K: usize, D: Disk>(
    disk: &mut D,
    state: &mut FileState<K>,
    slot: u32,
    update: &Update<K>,
    change: &Change<K>,
    pages: &[u32],
    batch: &mut Batch<K>,
) -> Result<(), DiskFailed>
    requires publishable { IsPublishable state.old (publishing_of change.now pages.now) }
    requires logged { IsLoggedUpdate (logged update.now change.now.note) }
    requires next { slot ≡ used_of state.old state.old.half }
    requires inside { slot < state.old.shape.slots }
    requires place { state.old.front + MOST_UPDATES < 2 ^ 63 }
    requires few { K ≤ 4 }
    requires size { file_pages state.old.shape * PAGE_BYTES ≤ D.extent disk.old }
    ensures moments { (k : Kept K) (m : Standing K) (e : ℕ × BucketBox K)
        (fresh : List (Option (List ℕ)))
        → IsCommitting state.old k m e update.now (publishing_of change.now pages.now) fresh
        → Meets D.Disk (with_fresh k fresh) disk.old
        → StaysOrMoves D.Disk m (batch_of_one state.old update.now change.now.note)
        disk.old disk.new }
    ensures committed { (k : Kept K) (m : Standing K) (e : ℕ × BucketBox K)
        (fresh : List (Option (List ℕ)))
        → IsCommitting state.old k m e update.now (publishing_of change.now pages.now) fresh
        → Meets D.Disk (with_fresh k fresh) disk.old
        → OnOk result (IsOpenInSession D.Disk state.new
        (behind m (batch_of_one state.old update.now change.now.note)) disk.new) }
    ensures alone { (k : Kept K) (m : Standing K) (e : ℕ × BucketBox K)
        (fresh : List (Option (List ℕ))) (s : State K)
        → IsCommitting state.old k m e update.now (publishing_of change.now pages.now) fresh
        → IsAlone state.old k m s
        → Meets D.Disk (with_fresh k fresh) disk.old
        → OnOk result (IsOpenAlone D.Disk state.new
        (behind m (batch_of_one state.old update.now change.now.note))
        (published e update.now change.now.note s) disk.new) }
    ensures doubted { (k : Kept K) (m : Standing K) (e : ℕ × BucketBox K)
        (fresh : List (Option (List ℕ)))
        → IsCommitting state.old k m e update.now (publishing_of change.now pages.now) fresh
        → Meets D.Disk (with_fresh k fresh) disk.old
        → OnErr result (IsDoubtful D.Disk state.old m
        (batch_of_one state.old update.now change.now.note) disk.new) }
    ensures books { OnOk result (state.new
        ≡ committed_books (published_books state.old (publishing_of change.now pages.now))) }
    ensures unpublished { OnErr result (state.new ≡ state.old) }
    ensures durable { OnOk result (IsSynced D.Disk disk.new) }
    ensures changes { Changes D.Disk
        (BatchStep state.old.shape state.old.half slot
        (batch_of_one state.old update.now change.now.note))
        disk.old disk.new }
    ensures cause { HasCause (D.write_count disk.old) (D.write_count disk.new) result }
{
    place_one(disk, state, slot, update, change.note, batch)?;
    state.publish(change, pages);
    state.commit_slot();
    Ok(())
}
