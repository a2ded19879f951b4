//! A store is opened, and closed.
ghost use Rattle.std.specs.Prelude.{◌≡◌, IsTrue, IfOk, IfErr};
ghost use Rattle.grid_types.specs.declared.refusal.Refusal.TheVariants.{NoMemory};
ghost use Rattle.disk_trait.specs.Calls.{OnlyReads, Changes, IsSynced, HasCauses};
ghost use Rattle.grid_model.specs.Lone.{opened};
ghost use Rattle.checkpoints.specs.Disks.{KeepsLength};
ghost use Rattle.file_images.specs.Leads.{Standing, HasStanding};
ghost use Rattle.file_opening.specs.Opening.{IsUnopened, LeavesStanding};
ghost use Rattle.file_opening.specs.Refusals.{IsRefused, IsNoDamage, MayRefuseOpening};
ghost use Rattle.grid_store.specs.Stores.{IsStoreAlone};
ghost use Rattle.grid_store.specs.Opening.{IsFreshStore, by_refusal, disk_behind};

use crate::store::Store;
use arrayvec::ArrayVec;
use disk_trait::{Disk, Steps};
use file_opening::{Opened, Unopened, open_file};
use grid_types::{MOST_ATTRIBUTES, PAGE_BYTES, Refusal};
use journal_slots::Batch;
use std::alloc::{AllocError, Global};
use std::sync::ledger::Ledger;

/// Room for the batches of updates, and for the page that a get reads.
fn take_room<const K: usize>(
    alloc: Global,
) -> Result<(Box<Batch<K>>, Box<[u8; PAGE_BYTES]>), AllocError> {
    let batch = Box::new(
        alloc,
        Batch {
            session: 0,
            first: 0,
            updates: ArrayVec::new(),
        },
    )?;
    let page = Box::new(alloc, [0; PAGE_BYTES])?;
    Ok((batch, page))
}

/// Opens a file as a store, after any stop. The file is judged, what its journal has is redone, and a new session takes it
/// over; the store then stands where the file's image did. All memory is taken before the first write, and the calls on the
/// store take none but for the answers of listings. After a failure the disk is handed back, and the file on it may be opened
/// again.
pub fn open_store<const K: usize, D: Disk, L: Ledger>(
    alloc: Global,
    disk: Box<D>,
    steps: &mut Steps<L>,
) -> Result<Store<K, D>, Unopened<D>>
    ensures reopened { IsTrue (D.honest disk.value)
        → (m : Standing K)
        → HasStanding (D.seen disk.value) m
        → IfOk result (λ s. IsStoreAlone D.Disk s (opened m.table m.layout m.place)) }
    ensures fresh { IfOk result (IsFreshStore (D.write_count disk.value)) }
    ensures moments { IsTrue (D.honest disk.value)
        → (m : Standing K)
        → HasStanding (D.seen disk.value) m
        → LeavesStanding D.Disk m disk.value (disk_behind result) }
    ensures refused { IsTrue (D.honest disk.value)
        → IfErr result (λ n. IsUnopened K (D.seen disk.value) n.refusal) }
    ensures standing { IsTrue (D.honest disk.value)
        → (m : Standing K)
        → HasStanding (D.seen disk.value) m
        → IfErr result (λ n. IsNoDamage n.refusal) }
    ensures untouched { IsTrue (D.honest disk.value)
        → IfErr result (λ n. IsRefused K (D.seen disk.value) n.refusal
        → OnlyReads D.Disk disk.value n.disk.value) }
    ensures memory { IfErr result (λ n. n.refusal ≡ NoMemory
        → OnlyReads D.Disk disk.value n.disk.value) }
    ensures durable { IfOk result (λ s. IsSynced D.Disk s.file.disk) }
    ensures changes { Changes D.Disk KeepsLength disk.value (disk_behind result) }
    ensures causes { HasCauses D.Disk MayRefuseOpening
        disk.value (disk_behind result) (by_refusal result) }
{
    if K > MOST_ATTRIBUTES {
        // No file has so many attributes, and none is opened.
        match open_file::<K, D, L>(alloc, disk, steps) {
            Ok(opened) => {
                let _state = opened.file.state();
                unreachable!()
            }
            Err(unopened) => return Err(unopened),
        }
    }
    let Ok((batch, page)) = take_room::<K>(alloc) else {
        return Err(Unopened {
            refusal: Refusal::NoMemory,
            disk,
        });
    };
    let faults = disk.write_faults();
    let Opened {
        file,
        next,
        room,
        query,
    } = open_file(alloc, disk, steps)?;
    Ok(Store {
        file,
        next,
        room,
        batch,
        query,
        page,
        stop: None,
        opened: faults,
    })
}

impl<const K: usize, D: Disk> Store<K, D> {
    /// Ends the store: its disk as it is, and the place of the last update. Nothing is written; what was answered is on the
    /// disk already.
    pub fn close(self) -> (Box<D>, u64)
        ensures disk { result.0.value ≡ self.file.disk }
        ensures front { result.1 ≡ self.file.books.front }
    {
        let front = self.front();
        let (disk, _, _) = self.file.into_parts();
        (disk, front)
    }
}
