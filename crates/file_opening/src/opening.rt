//! A file is opened: judged, redone, and taken over by a new session.
ghost use Rattle.std.specs.Prelude.{◌≡◌, ◌<◌, ◌≤◌, ◌*◌, ◌^◌, ℕ, IsTrue, IfOk, IfErr, OnOk};
ghost use Rattle.grid_types.specs.declared.refusal.Refusal.TheVariants.{NoMemory};
ghost use Rattle.grid_types.specs.declared.sizes.TheConstants.{PAGE_BYTES};
ghost use Rattle.grid_types.specs.Shapes.{file_pages};
ghost use Rattle.disk_trait.specs.Calls.{OnlyReads, Changes, IsSynced, HasCauses};
ghost use Rattle.shadow_directory.specs.Calls.{IsFault};
ghost use Rattle.file_images.specs.Leads.{Standing, HasStanding, updates_in};
ghost use Rattle.file_state.specs.Roots.{HasRoom};
ghost use Rattle.file_standing.specs.Open.{StaysStanding};
ghost use Rattle.checkpoints.specs.Disks.{KeepsLength};
ghost use Rattle.file_opening.specs.declared.redo_batches.Redo.TheVariants.{All as Whole, Unfit};
ghost use Rattle.file_opening.specs.Begun.{IsLawfulBegun};
ghost use Rattle.file_opening.specs.Opening.{IsIdle, IsUnopened, LeavesStanding, TellsUnfit, disk_after, with_refusal};
ghost use Rattle.file_opening.specs.Redoing.{MayRefuseRedo};
ghost use Rattle.file_opening.specs.Refusals.{IsRefused, IsNoDamage, MayRefuseOpening};
ghost use Rattle.file_opening.specs.UnderWay.{IsUnderWay, IsRedone, IsReopened, IsNextSession};

use crate::beginning::begin;
use crate::begun::Begun;
use crate::opened::{Opened, Unopened};
use crate::redo_batches::{Redo, redo_all};
use crate::renewing::renew;
use crate::slots::slot_of;
use disk_trait::{Disk, Steps};
use file_state::FileState;
use grid_file::GridFile;
use grid_types::Refusal;
use linear_scales::Root;
use std::alloc::Global;
use std::sync::ledger::Ledger;

/// A new session takes a file over, as far as its journal could be redone: where it could not, nothing is written, and the page
/// of the batch that is to blame is told.
fn finish<const K: usize, D: Disk, L: Ledger>(
    disk: &mut D,
    state: &mut FileState<K>,
    next: &mut Root<K>,
    redo: Redo,
    steps: &mut Steps<L>,
) -> Result<(), Refusal>
    requires room { HasRoom state.old.shape next.old }
    requires number { state.old.number < 2 ^ 63 }
    requires session { state.old.session < 2 ^ 63 }
    requires size { file_pages state.old.shape * PAGE_BYTES ≤ D.extent disk.old }
    ensures moments { (m : Standing K)
        → redo ≡ Whole
        → IsRedone D.Disk state.old disk.old m
        → StaysStanding D.Disk m disk.old disk.new }
    ensures reopened { (m : Standing K)
        → redo ≡ Whole
        → IsRedone D.Disk state.old disk.old m
        → OnOk result (IsReopened D.Disk state.new disk.new m) }
    ensures told { IsTrue (D.honest disk.old)
        → IfErr result (TellsUnfit K state.old.shape (D.seen disk.old)
        state.old.session redo) }
    ensures whole { OnOk result (redo ≡ Whole) }
    ensures unfit { (first : ℕ)
        → redo ≡ Unfit first
        → OnlyReads D.Disk disk.old disk.new }
    ensures rises { OnOk result (IsNextSession state.old state.new) }
    ensures room { OnOk result (HasRoom state.old.shape next.new) }
    ensures durable { OnOk result (IsSynced D.Disk disk.new) }
    ensures changes { Changes D.Disk KeepsLength disk.old disk.new }
    ensures causes { HasCauses D.Disk MayRefuseRedo disk.old disk.new result }
{
    match redo {
        Redo::All => renew(disk, state, next, steps),
        Redo::Unfit { first } => {
            let geometry = state.geometry();
            let page = slot_of::<K, D, L>(disk, &geometry, state.session(), first, steps)?;
            Err(Refusal::Damaged { page })
        }
    }
}

/// Redoes what an opening has found, and lets a new session take the file over.
fn reopen<const K: usize, D: Disk, L: Ledger>(
    disk: Box<D>,
    begun: Begun<K>,
    steps: &mut Steps<L>,
) -> Result<Opened<K, D>, Unopened<D>>
    requires lawful { IsLawfulBegun (D.extent disk.value) begun }
    ensures reopened { IsTrue (D.honest disk.value)
        → (m : Standing K)
        → IsUnderWay D.Disk begun.entry.state disk.value m (updates_in begun.entry.taken)
        → IfOk result (λ o. IsReopened D.Disk o.file.books o.file.disk m) }
    ensures moments { IsTrue (D.honest disk.value)
        → (m : Standing K)
        → IsUnderWay D.Disk begun.entry.state disk.value m (updates_in begun.entry.taken)
        → StaysStanding D.Disk m disk.value (disk_after result) }
    ensures honest { IsTrue (D.honest disk.value)
        → (m : Standing K)
        → IsUnderWay D.Disk begun.entry.state disk.value m (updates_in begun.entry.taken)
        → IfErr result (λ n. IsFault n.refusal) }
    ensures idle { IfOk result IsIdle }
    ensures durable { IfOk result (λ o. IsSynced D.Disk o.file.disk) }
    ensures changes { Changes D.Disk KeepsLength disk.value (disk_after result) }
    ensures causes { HasCauses D.Disk MayRefuseRedo
        disk.value (disk_after result) (with_refusal result) }
{
    let Begun {
        state,
        mut next,
        mut room,
        query,
        taken,
    } = begun;
    let mut file = GridFile::of(disk, state);
    let redone = redo_all(&mut file, &taken, &mut room, steps);
    let (mut disk, mut state, _) = file.into_parts();
    let redo = match redone {
        Ok(redo) => redo,
        Err(refusal) => return Err(Unopened { refusal, disk }),
    };
    match finish(&mut *disk, &mut state, &mut next, redo, steps) {
        Ok(()) => Ok(Opened {
            file: GridFile::of(disk, state),
            next,
            room,
            query,
        }),
        Err(refusal) => Err(Unopened { refusal, disk }),
    }
}

/// Opens a file after any stop. It is judged, all updates of its journal are redone, and a new session takes it over by a root
/// of its own at the front. All memory is taken before the first write, and no call takes any later. After a failure the disk
/// is handed back, and the file on it may be opened again.
pub fn open_file<const K: usize, D: Disk, L: Ledger>(
    alloc: Global,
    disk: Box<D>,
    steps: &mut Steps<L>,
) -> Result<Opened<K, D>, Unopened<D>>
    ensures reopened { IsTrue (D.honest disk.value)
        → (m : Standing K)
        → HasStanding (D.seen disk.value) m
        → IfOk result (λ o. IsReopened D.Disk o.file.books o.file.disk m) }
    ensures idle { IfOk result IsIdle }
    ensures moments { IsTrue (D.honest disk.value)
        → (m : Standing K)
        → HasStanding (D.seen disk.value) m
        → LeavesStanding D.Disk m disk.value (disk_after result) }
    ensures refused { IsTrue (D.honest disk.value)
        → IfErr result (λ n. IsUnopened K (D.seen disk.value) n.refusal) }
    ensures standing { IsTrue (D.honest disk.value)
        → (m : Standing K)
        → HasStanding (D.seen disk.value) m
        → IfErr result (λ n. IsNoDamage n.refusal) }
    ensures untouched { IsTrue (D.honest disk.value)
        → IfErr result (λ n. IsRefused K (D.seen disk.value) n.refusal
        → OnlyReads D.Disk disk.value n.disk.value) }
    ensures memory { IfErr result (λ n. n.refusal ≡ NoMemory
        → OnlyReads D.Disk disk.value n.disk.value) }
    ensures durable { IfOk result (λ o. IsSynced D.Disk o.file.disk) }
    ensures changes { Changes D.Disk KeepsLength disk.value (disk_after result) }
    ensures causes { HasCauses D.Disk MayRefuseOpening
        disk.value (disk_after result) (with_refusal result) }
{
    let mut disk = disk;
    match begin(alloc, &mut *disk, steps) {
        Ok(begun) => reopen(disk, begun, steps),
        Err(refusal) => Err(Unopened { refusal, disk }),
    }
}
