//! An opening begins: a file is judged, all memory is taken, and what was read is put on the disk for good.
ghost use Rattle.std.specs.Prelude.{◌≡◌, ◌≤◌, ◌+◌, ℕ, IsTrue, IfOk, IfErr, OnOk, OnErr, replicate, slice_index};
ghost use Rattle.disk_trait.specs.Calls.{OnlyReads, Changes, IsSynced, HasCauses};
ghost use Rattle.disk_trait.specs.Disk.{Stays};
ghost use Rattle.linear_scales.specs.Limited.{limits_of};
ghost use Rattle.linear_scales.specs.Roots.{whole_of, IsRoot};
ghost use Rattle.file_books.specs.Effects.{opened_books};
ghost use Rattle.file_state.specs.Roots.{HasRoom};
ghost use Rattle.file_images.specs.Leads.{Standing, HasStanding, updates_in};
ghost use Rattle.recovery.specs.Surveys.{AreFewUsed, survey_pages};
ghost use Rattle.file_updates.specs.Rooms.{HasRoomFor};
ghost use Rattle.query_paths.specs.Rooms.{room_for};
ghost use Rattle.file_opening.specs.Refusals.{IsRefusedOr, IsNoDamage, MayRefuseOpening};
ghost use Rattle.file_opening.specs.Begun.{IsLawfulBegun, HasNoFault};
ghost use Rattle.file_opening.specs.UnderWay.{IsUnderWay};

use crate::begun::Begun;
use crate::wearing::survey_unworn;
use disk_trait::{Disk, Steps};
use file_sections::sync;
use file_state::{FileState, room_for_root};
use file_updates::UpdateRoom;
use grid_types::Refusal;
use linear_scales::Root;
use query_paths::Room;
use recovery::{Survey, survey_law};
use std::alloc::{AllocError, Global};
use std::sync::ledger::Ledger;

/// All memory that a file needs from its survey on: what is kept of it, and room for roots, for updates, and for counts and listings.
fn take_memory<const K: usize>(
    alloc: Global,
    survey: &Survey<K>,
) -> Result<(FileState<K>, Root<K>, UpdateRoom<K>, Room<K>), AllocError>
    requires attributes { survey.now.geometry.shape.k ≡ K }
    requires root { IsRoot survey.now.geometry.shape survey.now.root }
    requires limits { limits_of survey.now.root.scales
        ≡ replicate K survey.now.geometry.shape.boundaries }
    requires few { AreFewUsed survey.now.geometry.shape survey.now.used }
    ensures state { IfOk result (λ r. r.0
        ≡ opened_books survey.now.geometry.shape (whole_of survey.now.root)
        (slice_index survey.now.used 0) (slice_index survey.now.used 1)) }
    ensures room { IfOk result (λ r. HasRoom survey.now.geometry.shape r.1) }
    ensures updates { IfOk result (λ r. HasRoomFor survey.now.geometry.shape r.2) }
    ensures query { IfOk result (λ r. room_for r.3 ≡ survey.now.geometry.shape.pages) }
{
    let state = FileState::open(alloc, survey.geometry, &survey.root, survey.used)?;
    let next = room_for_root(alloc, &survey.geometry)?;
    let room = UpdateRoom::new(alloc, &survey.geometry)?;
    let query = Room::new(alloc, survey.geometry.shape.pages)?;
    Ok((state, next, room, query))
}

/// Judges a file, takes all memory for it, and puts on the disk for good what was read.
pub(crate) fn begin<const K: usize, D: Disk, L: Ledger>(
    alloc: Global,
    disk: &mut D,
    steps: &mut Steps<L>,
) -> Result<Begun<K>, Refusal>
    ensures begun { IsTrue (D.honest disk.old)
        → (m : Standing K)
        → HasStanding (D.seen disk.old) m
        → IfOk result (λ b. IsUnderWay D.Disk b.state disk.new m (updates_in b.taken)) }
    ensures lawful { IfOk result (IsLawfulBegun (D.extent disk.old)) }
    ensures refused { IsTrue (D.honest disk.old)
        → IfErr result (IsRefusedOr K (D.seen disk.old)) }
    ensures sound { IsTrue (D.honest disk.old) → OnOk result (HasNoFault K (D.seen disk.old)) }
    ensures standing { IsTrue (D.honest disk.old)
        → (m : Standing K)
        → HasStanding (D.seen disk.old) m
        → IfErr result IsNoDamage }
    ensures durable { OnOk result (IsSynced D.Disk disk.new) }
    ensures changes { Changes D.Disk Stays disk.old disk.new }
    ensures untouched { OnErr result (OnlyReads D.Disk disk.old disk.new) }
    ensures causes { HasCauses D.Disk MayRefuseOpening disk.old disk.new result }
    ensures ticks { IfOk result (λ b. steps.new ≤ steps.old + survey_pages b.state.shape) }
{
    // What was found has no fault, and what stands none either.
    survey_law::<K>();
    let survey = survey_unworn(alloc, disk, steps)?;
    let Ok((state, next, room, query)) = take_memory(alloc, &survey) else {
        return Err(Refusal::NoMemory);
    };
    let Ok(()) = sync(disk) else {
        return Err(Refusal::WriteFault);
    };
    Ok(Begun {
        state,
        next,
        room,
        query,
        taken: survey.taken,
    })
}
