//! All updates behind a root are redone, in order.
ghost use Rattle.std.specs.Prelude.{◌≡◌, ◌<◌, ◌≤◌, ◌+◌, ◌^◌, ◌++◌, [], List, length, All, IsTrue, IfOk, IfErr};
ghost use Rattle.grid_types.specs.declared.layout_change.LoggedUpdate.{LoggedUpdate};
ghost use Rattle.disk_trait.specs.Calls.{Changes, HasCauses};
ghost use Rattle.grid_model.specs.Lawful.{IsLoggedUpdate};
ghost use Rattle.journal_slots.specs.Scans.{AreLawfulOf};
ghost use Rattle.shadow_directory.specs.Calls.{IsFault};
ghost use Rattle.file_images.specs.Leads.{Standing, updates_in};
ghost use Rattle.file_standing.specs.Open.{StaysStanding};
ghost use Rattle.checkpoints.specs.Disks.{KeepsLength};
ghost use Rattle.file_updates.specs.Rooms.{HasRoomFor};
ghost use Rattle.file_opening.specs.declared.redo_batches.Redo.TheVariants.{All as Whole};
ghost use Rattle.file_opening.specs.UnderWay.{IsUnderWay, IsRedone};
ghost use Rattle.file_opening.specs.Redoing.{KeepsRoot, MayRefuseRedo, CameSoFar};

use crate::redoing::redo_update;
use disk_trait::{Disk, Steps};
use file_updates::UpdateRoom;
use grid_file::GridFile;
use grid_types::{LoggedUpdate, Refusal};
use journal_slots::Batches;
use std::sync::ledger::Ledger;

/// How far a redo came.
#[derive(Clone, Copy, Debug, PartialEq, Eq)]
pub(crate) enum Redo {
    /// All updates are redone.
    All,
    /// An update of the batch that begins at this place can't be redone, which is so of no file that stands for a table.
    Unfit { first: u64 },
}

/// Redoes the updates of a batch in order, and answers whether all of them could be.
fn redo_batch<const K: usize, D: Disk, L: Ledger>(
    file: &mut GridFile<K, D>,
    updates: &[LoggedUpdate<K>],
    room: &mut UpdateRoom<K>,
    steps: &mut Steps<L>,
) -> Result<bool, Refusal>
    requires room { HasRoomFor file.old.books.shape room.old }
    requires none { file.old.claimed ≡ [] }
    requires lawful { All IsLoggedUpdate updates.now }
    requires places { file.old.books.front + length updates.now < 2 ^ 63 }
    ensures redone { (m : Standing K) (rest : List (LoggedUpdate K))
        → IsTrue (D.honest file.old.disk)
        → IsUnderWay D.Disk file.old.books file.old.disk m (updates.now ++ rest)
        → IfOk result (λ done. IsTrue done
        × IsUnderWay D.Disk file.new.books file.new.disk m rest) }
    ensures moments { (m : Standing K) (rest : List (LoggedUpdate K))
        → IsUnderWay D.Disk file.old.books file.old.disk m (updates.now ++ rest)
        → StaysStanding D.Disk m file.old.disk file.new.disk }
    ensures honest { (m : Standing K) (rest : List (LoggedUpdate K))
        → IsTrue (D.honest file.old.disk)
        → IsUnderWay D.Disk file.old.books file.old.disk m (updates.now ++ rest)
        → IfErr result IsFault }
    ensures none { file.new.claimed ≡ [] }
    ensures front { IfOk result (λ done. IsTrue done
        → file.new.books.front ≡ file.old.books.front + length updates.now) }
    ensures same { KeepsRoot file.old.books file.new.books }
    ensures changes { Changes D.Disk KeepsLength file.old.disk file.new.disk }
    ensures causes { HasCauses D.Disk MayRefuseRedo file.old.disk file.new.disk result }
    ensures room { HasRoomFor file.old.books.shape room.new }
{
    for logged in updates {
        if !redo_update(file, logged, room, steps)? {
            return Ok(false);
        }
    }
    Ok(true)
}

/// Redoes the updates of batches in order, each on pages that the root does not reach, and syncs nothing. After a refusal the
/// root and the journal are as they were, so that the file may be opened again.
pub(crate) fn redo_all<const K: usize, D: Disk, L: Ledger>(
    file: &mut GridFile<K, D>,
    taken: &Batches<K>,
    room: &mut UpdateRoom<K>,
    steps: &mut Steps<L>,
) -> Result<Redo, Refusal>
    requires room { HasRoomFor file.old.books.shape room.old }
    requires none { file.old.claimed ≡ [] }
    requires lawful { AreLawfulOf file.old.books.session taken.now }
    requires places { file.old.books.front + length (updates_in taken.now) < 2 ^ 63 }
    ensures redone { IsTrue (D.honest file.old.disk)
        → (m : Standing K)
        → IsUnderWay D.Disk file.old.books file.old.disk m (updates_in taken.now)
        → IfOk result (λ r. (r ≡ Whole) × IsRedone D.Disk file.new.books file.new.disk m) }
    ensures moments { (m : Standing K)
        → IsUnderWay D.Disk file.old.books file.old.disk m (updates_in taken.now)
        → StaysStanding D.Disk m file.old.disk file.new.disk }
    ensures honest { IsTrue (D.honest file.old.disk)
        → (m : Standing K)
        → IsUnderWay D.Disk file.old.books file.old.disk m (updates_in taken.now)
        → IfErr result IsFault }
    ensures far { IfOk result (CameSoFar file.old.books file.new.books taken.now) }
    ensures none { file.new.claimed ≡ [] }
    ensures same { KeepsRoot file.old.books file.new.books }
    ensures changes { Changes D.Disk KeepsLength file.old.disk file.new.disk }
    ensures causes { HasCauses D.Disk MayRefuseRedo file.old.disk file.new.disk result }
    ensures room { HasRoomFor file.old.books.shape room.new }
{
    // The books of a file bound its number of attributes.
    let _state = file.state();
    for batch in taken.list() {
        if !redo_batch(file, batch.updates.as_slice(), room, steps)? {
            return Ok(Redo::Unfit { first: batch.first });
        }
    }
    Ok(Redo::All)
}
