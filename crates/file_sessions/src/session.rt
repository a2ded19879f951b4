//! A file is opened, the lines of a script are answered over it, and it is closed.
ghost use Rattle.std.specs.Prelude.{◌≡◌, IsTrue, All, IfOk, IfErr};
ghost use Rattle.grid_types.specs.declared.refusal.Refusal.TheVariants.{NoMemory};
ghost use Rattle.disk_trait.specs.Calls.{OnlyReads, Changes, HasCauses};
ghost use Rattle.checkpoints.specs.Disks.{KeepsLength};
ghost use Rattle.file_images.specs.Leads.{Standing, HasStanding};
ghost use Rattle.file_opening.specs.Opening.{LeavesStanding, IsUnopened};
ghost use Rattle.file_opening.specs.Refusals.{IsRefused, IsNoDamage, MayRefuseOpening};
ghost use Rattle.script_sessions.specs.Replies.{AreRepliesTo, CountsFault};
ghost use Rattle.file_sessions.specs.Sessions.{StandsAs, IsSession};
ghost use Rattle.file_sessions.specs.Ends.{disk_of, refusal_of};

use client_sessions::session_law;
use disk_trait::{Disk, Steps};
use file_opening::Unopened;
use grid_store::{open_store, store_law};
use grid_types::{Line, Refusal, Reply};
use script_sessions::{answer_all, sessions_law};
use std::alloc::{AllocError, Global};
use std::sync::ledger::Ledger;

/// A session that has ended: the file's disk, the place of the last update, how many records the file has there, and the
/// replies to the lines in their order.
#[derive(Drop)]
pub struct Session<const K: usize, D: Disk> {
    pub disk: Box<D>,
    pub front: u64,
    pub records: u64,
    pub replies: Vec<Reply<K>>,
}

/// Opens the file on a disk, answers the lines over it one after the other, and closes it. The memory for the replies is taken
/// first, all else but the records of listings by the opening. A file that is not opened has answered nothing, and its disk is
/// handed back.
pub fn run_session<const K: usize, D: Disk, L: Ledger>(
    alloc: Global,
    disk: Box<D>,
    lines: &[Line<K>],
    steps: &mut Steps<L>,
) -> Result<Session<K, D>, Unopened<D>>
    ensures session { (m : Standing K)
        → StandsAs D.Disk m disk.value
        → IfOk result (λ s. IsSession D.Disk m lines.now s.replies.items s.front s.records
        disk.value s.disk.value) }
    ensures kinds { IfOk result (λ s. AreRepliesTo lines.now s.replies.items) }
    ensures faults { IfOk result (λ s.
        All (CountsFault D.Disk disk.value s.disk.value) s.replies.items) }
    ensures refused { IsTrue (D.honest disk.value)
        → IfErr result (λ n. IsUnopened K (D.seen disk.value) n.refusal) }
    ensures standing { IsTrue (D.honest disk.value)
        → (m : Standing K)
        → HasStanding (D.seen disk.value) m
        → IfErr result (λ n. IsNoDamage n.refusal) }
    ensures moments { IsTrue (D.honest disk.value)
        → (m : Standing K)
        → HasStanding (D.seen disk.value) m
        → IfErr result (λ n. LeavesStanding D.Disk m disk.value n.disk.value) }
    ensures untouched { IsTrue (D.honest disk.value)
        → IfErr result (λ n. IsRefused K (D.seen disk.value) n.refusal
        → OnlyReads D.Disk disk.value n.disk.value) }
    ensures memory { IfErr result (λ n. n.refusal ≡ NoMemory
        → OnlyReads D.Disk disk.value n.disk.value) }
    ensures changes { Changes D.Disk KeepsLength disk.value (disk_of result) }
    ensures causes { HasCauses D.Disk MayRefuseOpening disk.value (disk_of result) (refusal_of result) }
{
    session_law::<K>();
    sessions_law::<K, D>();
    store_law::<K, D>();
    let mut replies = match Vec::with_capacity(alloc, lines.len()) {
        Ok(replies) => replies,
        Err(AllocError) => {
            return Err(Unopened {
                refusal: Refusal::NoMemory,
                disk,
            });
        }
    };
    let mut store = open_store(alloc, disk, steps)?;
    answer_all(alloc, &mut store, lines, &mut replies, steps);
    let records = store.stat().value.records;
    let (disk, front) = store.close();
    Ok(Session {
        disk,
        front,
        records,
        replies,
    })
}
