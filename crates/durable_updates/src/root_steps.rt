//! A root step of an open file, as its client asks it or as an update needs it.
ghost use Rattle.std.specs.Prelude.{◌≡◌, ◌<◌, ◌≤◌, ◌+◌, ℕ, [], Err, OnOk};
ghost use Rattle.std.specs.List.{count_by};
ghost use Rattle.grid_types.specs.declared.refusal.Refusal.TheVariants.{Worn};
ghost use Rattle.disk_trait.specs.Calls.{Changes, IsSynced, HasCauses};
ghost use Rattle.grid_model.specs.Lone.{State, root};
ghost use Rattle.page_states.specs.States.{is_claimed};
ghost use Rattle.file_images.specs.Leads.{Standing};
ghost use Rattle.file_books.specs.Effects.{used_of};
ghost use Rattle.file_state.specs.Roots.{HasRoom};
ghost use Rattle.file_standing.specs.Open.{IsOpenInSession, IsOpenAlone, StaysStanding};
ghost use Rattle.checkpoints.specs.Checkpoints.{checkpointed_books};
ghost use Rattle.checkpoints.specs.Disks.{KeepsLength};
ghost use Rattle.grid_file.specs.Keeping.{KeepsReading};
ghost use Rattle.client_sessions.specs.Told.{worn_from};
ghost use Rattle.durable_updates.specs.Answers.{GoesOn};
ghost use Rattle.durable_updates.specs.Causes.{IsRootRefusal};

use disk_trait::{Disk, Steps};
use grid_file::GridFile;
use grid_types::Refusal;
use linear_scales::Root;
use std::sync::ledger::Ledger;

/// From this number on a front and a root's number are worn (`docs/FORMAT.md`).
pub(crate) const WORN: u64 = 1 << 62;

/// A root step, where the root's number may still rise: the front is rooted, the pages that roots have no need of are freed,
/// and the half of the journal that is not current is cleared. It takes no memory. After a refusal the file goes on from where
/// it stands.
pub fn step_root<const K: usize, D: Disk, L: Ledger>(
    file: &mut GridFile<K, D>,
    next: &mut Root<K>,
    steps: &mut Steps<L>,
) -> Result<(), Refusal>
    requires room { HasRoom file.old.books.shape next.old }
    requires none { file.old.claimed ≡ [] }
    ensures moments { (m : Standing K)
        → IsOpenInSession D.Disk file.old.books m file.old.disk
        → StaysStanding D.Disk m file.old.disk file.new.disk }
    ensures stays { (m : Standing K)
        → IsOpenInSession D.Disk file.old.books m file.old.disk
        → IsOpenInSession D.Disk file.new.books m file.new.disk }
    ensures alone { (m : Standing K) (s : State K)
        → IsOpenAlone D.Disk file.old.books m s file.old.disk
        → OnOk result (IsOpenAlone D.Disk file.new.books m (root s) file.new.disk) }
    ensures worn { worn_from ≤ file.old.books.number
        → (result ≡ Err (Worn file.old.books.number)) × (file.new ≡ file.old) }
    ensures rooted { OnOk result (file.new.books.rooted_at ≡ file.new.books.front) }
    ensures books { OnOk result (file.new.books ≡ checkpointed_books file.old.books) }
    ensures claims { count_by is_claimed file.new.books.pages
        ≡ count_by is_claimed file.old.books.pages }
    ensures slot { OnOk result (used_of file.new.books file.new.books.half
        < file.new.books.shape.slots) }
    ensures causes { HasCauses D.Disk (IsRootRefusal file.old.books)
        file.old.disk file.new.disk result }
    ensures reading { KeepsReading file.old.books file.new.books }
    ensures same { GoesOn file.old file.new }
    ensures room { HasRoom file.old.books.shape next.new }
    ensures durable { OnOk result (IsSynced D.Disk file.new.disk) }
    ensures changes { Changes D.Disk KeepsLength file.old.disk file.new.disk }
    ensures least { steps.old ≤ steps.new }
    ensures most { steps.new ≤ steps.old + 1 }
{
    let number = file.state().number();
    if number >= WORN {
        return Err(Refusal::Worn { count: number });
    }
    file.checkpoint(next, steps)
}
