//! Room for a change: free pages and a slot of the journal, by root steps where these help.
ghost use Rattle.std.specs.Prelude.{◌≡◌, ◌≢◌, ◌<◌, ◌≤◌, ◌+◌, ◌∷◌, ◌&&◌, ◌==◌, ℕ, [], true, false, nat_lt, OnOk, IfErr};
ghost use Rattle.std.specs.List.{count_by, list_any};
ghost use Rattle.grid_model.specs.Lone.{State, claimed, queued, root_if};
ghost use Rattle.page_states.specs.Effects.{is_of_roots};
ghost use Rattle.page_states.specs.States.{is_free};
ghost use Rattle.file_images.specs.Leads.{Standing};
ghost use Rattle.file_books.specs.Effects.{used_of};
ghost use Rattle.file_state.specs.Roots.{HasRoom};
ghost use Rattle.durable_updates.specs.Goings.{GoesOnThere, HasRoomAlone, IsOpenSwept, IsRoomCause, IsStepCause};

use crate::root_steps::step_root;
use disk_trait::{Disk, Steps};
use file_state::FileState;
use grid_file::GridFile;
use grid_types::Refusal;
use linear_scales::Root;
use std::sync::ledger::Ledger;

/// Whether fewer pages are free than are needed, and a root step would free some.
fn lacks_pages<const K: usize>(state: &FileState<K>, need: u32) -> bool
    ensures { result
        ≡ (nat_lt (count_by is_free state.now.pages) need
        && list_any (is_of_roots [] (state.now.rooted_at ∷ [])) state.now.pages) }
{
    state.free() < need && state.would_free()
}

/// Whether the current half of the journal has no slot left.
fn lacks_slot<const K: usize>(state: &FileState<K>) -> bool
    ensures full { result ≡ (used_of state.now state.now.half == state.now.shape.slots) }
    ensures left { result ≡ false → used_of state.now state.now.half < state.now.shape.slots }
{
    match state.slot() {
        Some(_) => false,
        None => true,
    }
}

/// A root step, where it is due.
fn step_if<const K: usize, D: Disk, L: Ledger>(
    file: &mut GridFile<K, D>,
    next: &mut Root<K>,
    due: bool,
    steps: &mut Steps<L>,
) -> Result<(), Refusal>
    requires room { HasRoom file.old.books.shape next.old }
    requires none { file.old.claimed ≡ [] }
    ensures alone { (m : Standing K) (s : State K)
        → IsOpenSwept D.Disk file.old.books m s file.old.disk
        → OnOk result (IsOpenSwept D.Disk file.new.books m (root_if due s) file.new.disk) }
    ensures slot { OnOk result (due ≡ true
        → used_of file.new.books file.new.books.half < file.new.books.shape.slots) }
    ensures left { due ≡ false → file.new ≡ file.old }
    ensures free { OnOk result (count_by is_free file.old.books.pages
        ≤ count_by is_free file.new.books.pages) }
    ensures refused { IfErr result (IsStepCause D.Disk file.old file.new) }
    ensures same { GoesOnThere K D.Disk file.old file.new }
    ensures room { HasRoom file.old.books.shape next.new }
    ensures least { steps.old ≤ steps.new }
{
    if due {
        step_root(file, next, steps)
    } else {
        Ok(())
    }
}

/// Free pages for a change, by a root step where they lack and it would free some. The file is swept.
fn make_pages<const K: usize, D: Disk, L: Ledger>(
    file: &mut GridFile<K, D>,
    next: &mut Root<K>,
    need: u32,
    steps: &mut Steps<L>,
) -> Result<(), Refusal>
    requires room { HasRoom file.old.books.shape next.old }
    requires none { file.old.claimed ≡ [] }
    ensures alone { (m : Standing K) (s : State K)
        → IsOpenSwept D.Disk file.old.books m s file.old.disk
        → HasRoomAlone D.Disk file.old.books.shape m need
        (claimed file.old.books.shape need s) (claimed file.old.books.shape need s)
        result file.new.books file.new.disk }
    ensures enough { OnOk result (need ≤ count_by is_free file.new.books.pages) }
    ensures refused { IfErr result (IsRoomCause D.Disk need file.old file.new) }
    ensures same { GoesOnThere K D.Disk file.old file.new }
    ensures room { HasRoom file.old.books.shape next.new }
    ensures least { steps.old ≤ steps.new }
{
    let due = lacks_pages(file.state(), need);
    step_if(file, next, due, steps)?;
    let free = file.state().free();
    if free < need {
        return Err(Refusal::Full { free, need });
    }
    Ok(())
}

/// A slot of the journal for a batch, by a root step where there is none. No fewer pages are free behind it.
fn make_slot<const K: usize, D: Disk, L: Ledger>(
    file: &mut GridFile<K, D>,
    next: &mut Root<K>,
    steps: &mut Steps<L>,
) -> Result<(), Refusal>
    requires room { HasRoom file.old.books.shape next.old }
    requires none { file.old.claimed ≡ [] }
    ensures alone { (m : Standing K) (s : State K)
        → IsOpenSwept D.Disk file.old.books m s file.old.disk
        → OnOk result (IsOpenSwept D.Disk file.new.books m
        (queued file.old.books.shape s) file.new.disk) }
    ensures slot { OnOk result
        (used_of file.new.books file.new.books.half < file.new.books.shape.slots) }
    ensures free { OnOk result (count_by is_free file.old.books.pages
        ≤ count_by is_free file.new.books.pages) }
    ensures refused { IfErr result (IsStepCause D.Disk file.old file.new) }
    ensures same { GoesOnThere K D.Disk file.old file.new }
    ensures room { HasRoom file.old.books.shape next.new }
    ensures least { steps.old ≤ steps.new }
{
    let due = lacks_slot(file.state());
    step_if(file, next, due, steps)
}

/// Room for a change: so many free pages, and a slot of the journal. The file is swept. After a refusal it goes on from where it
/// stands.
pub(crate) fn make_room<const K: usize, D: Disk, L: Ledger>(
    file: &mut GridFile<K, D>,
    next: &mut Root<K>,
    need: u32,
    steps: &mut Steps<L>,
) -> Result<(), Refusal>
    requires room { HasRoom file.old.books.shape next.old }
    requires none { file.old.claimed ≡ [] }
    ensures alone { (m : Standing K) (s : State K)
        → IsOpenSwept D.Disk file.old.books m s file.old.disk
        → HasRoomAlone D.Disk file.old.books.shape m need
        (claimed file.old.books.shape need s)
        (queued file.old.books.shape (claimed file.old.books.shape need s))
        result file.new.books file.new.disk }
    ensures enough { OnOk result (need ≤ count_by is_free file.new.books.pages) }
    ensures slot { OnOk result
        (used_of file.new.books file.new.books.half < file.new.books.shape.slots) }
    ensures refused { IfErr result (IsRoomCause D.Disk need file.old file.new) }
    ensures same { GoesOnThere K D.Disk file.old file.new }
    ensures room { HasRoom file.old.books.shape next.new }
    ensures least { steps.old ≤ steps.new }
{
    make_pages(file, next, need, steps)?;
    make_slot(file, next, steps)
}
