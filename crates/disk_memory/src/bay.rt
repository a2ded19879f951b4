//! A bay of disks in memory.
ghost use Rattle.std.specs.Prelude.{◌≡◌, ◌≢◌, ◌⊎◌, ◌*◌, Contains, IsErr, ◌↔◌, ◌+◌, ◌-◌, ◌^◌, ◌++◌, ◌∷◌, [], min, ◌≤◌, List, ℕ, true, IsNone, IfOk, IfSome, IfNone, OnOk, OnErr};
ghost use Rattle.std.specs.List.{position};
ghost use Rattle.grid_types.specs.declared.sizes.TheConstants.{PAGE_BYTES};
ghost use Rattle.disk_trait.specs.Bay.{Absent, Out, Home, SameBut, Tells, blank, IsUnfailed, HasNameCause};
ghost use Rattle.disk_trait.specs.Causes.{HasCause, Rose};
ghost use Rattle.disk_memory.specs.Bays.{is_named};

use crate::memory::Memory;
use crate::plan::Plan;
use disk_trait::{Bay, BayFailed, Disk};
use std::alloc::{AllocError, Global};

/// A name, with its disk unless that is out.
#[derive(Drop)]
struct Entry {
    name: String,
    disk: Option<Memory>,
}

/// A bay of disks in memory, each under a name that is compared by its bytes.
///
/// A create or an open looks for the name before all else: what the name refuses is no failure that is counted, also
/// where that call was chosen to fail. Where calls of a disk itself have failed, its close raises the bay's count and puts
/// the disk back all the same. A close that fails loses the disk, and leaves what was under the name.
#[derive(Drop)]
pub struct MemoryBay {
    alloc: Global,
    entries: Vec<Entry>,
    plan: Plan,
    failures: u64,
}

impl MemoryBay {
    ghost use Rattle.disk_memory.specs.Memories.{reads_of};
    ghost use Rattle.disk_memory.specs.Bays.{place_of, place_of_disk, failures_of, chosen_calls, SamePlaces, HasNoDisk};

    /// A bay with no name.
    pub fn new(alloc: Global) -> MemoryBay
        ensures absent { (name : List ℕ) → place_of result name ≡ Absent }
        ensures unfailed { failures_of result ≡ 0 }
        ensures unplanned { chosen_calls result ≡ [] }
    {
        MemoryBay {
            alloc,
            entries: Vec::new(alloc),
            plan: Plan::new(alloc),
            failures: 0,
        }
    }

    /// Puts a disk under a name. Where there is no memory for the name the disk is lost.
    pub fn add(&mut self, name: &str, disk: Memory) -> Result<(), AllocError>
        requires { place_of self.old name.now ≡ Absent }
        ensures home { OnOk result (place_of self.new name.now ≡ Home disk) }
        ensures refused { OnErr result (place_of self.new name.now ≡ Absent) }
        ensures others { SameBut name.now (place_of self.old) (place_of self.new) }
        ensures failures { failures_of self.new ≡ failures_of self.old }
        ensures chosen { chosen_calls self.new ≡ chosen_calls self.old }
    {
        self.add_entry(name, Some(disk))
    }

    /// What reads of the disk give that lies under a name, where one does.
    pub fn bytes(&self, name: &str) -> Option<&[u8]>
        ensures found { IfSome result (λ b. Tells (λ d. b.now ≡ reads_of d)
            (place_of self.now name.now)) }
        ensures none { IfNone result (HasNoDisk (place_of self.now name.now)) }
    {
        let Some(index) = self.find(name) else {
            return None;
        };
        match &self.entries[index].disk {
            Some(disk) => Some(disk.bytes()),
            None => None,
        }
    }

    /// From now on that call fails, counted from 1 over creates, opens and closes: 1 is the next of them.
    pub fn fail(&mut self, call: u64) -> Result<(), AllocError>
        ensures same { SamePlaces self.old self.new }
        ensures failures { failures_of self.new ≡ failures_of self.old }
        ensures chosen { OnOk result (chosen_calls self.new ≡ chosen_calls self.old ++ call ∷ []) }
        ensures refused { OnErr result (chosen_calls self.new ≡ chosen_calls self.old) }
    {
        self.plan.choose(call)
    }

    /// The first entry with a name.
    fn find(&self, name: &str) -> Option<usize>
        ensures first { result ≡ position (is_named name.now) self.now.entries.items }
        ensures absent { IsNone result ↔ (place_of self.now name.now ≡ Absent) }
    {
        first_with_name(&self.entries, name)
    }

    /// Adds an entry for a name that is absent.
    fn add_entry(&mut self, name: &str, disk: Option<Memory>) -> Result<(), AllocError>
        requires { place_of self.old name.now ≡ Absent }
        ensures added { OnOk result (place_of self.new name.now ≡ place_of_disk disk) }
        ensures refused { OnErr result (place_of self.new name.now ≡ Absent) }
        ensures others { SameBut name.now (place_of self.old) (place_of self.new) }
        ensures failures { failures_of self.new ≡ failures_of self.old }
        ensures chosen { chosen_calls self.new ≡ chosen_calls self.old }
    {
        let name = String::from_str(self.alloc, name)?;
        self.entries.push(Entry { name, disk })?;
        Ok(())
    }

    /// Puts a disk under a name, whatever is there.
    fn put_back(&mut self, name: &str, disk: Memory) -> Result<(), AllocError>
        ensures home { OnOk result (place_of self.new name.now ≡ Home disk) }
        ensures absent { OnErr result (place_of self.old name.now ≡ Absent) }
        ensures refused { OnErr result (place_of self.new name.now ≡ Absent) }
        ensures others { SameBut name.now (place_of self.old) (place_of self.new) }
        ensures failures { failures_of self.new ≡ failures_of self.old }
        ensures chosen { chosen_calls self.new ≡ chosen_calls self.old }
    {
        match self.find(name) {
            Some(index) => {
                self.entries[index].disk = Some(disk);
                Ok(())
            }
            None => self.add_entry(name, Some(disk)),
        }
    }
}

/// The first of some entries with a name.
fn first_with_name(entries: &[Entry], name: &str) -> Option<usize>
    ensures { result ≡ position (is_named name.now) entries.now }
{
    entries.iter().position(|entry| entry.name.as_str() == name)
}

/// Counts a failure of the bay.
fn count_failure(failures: &mut u64) -> BayFailed
    ensures counted { failures.new ≡ min (failures.old + 1) (2 ^ 64 - 1) }
    ensures later { failures.old ≤ failures.new }
{
    *failures = failures.saturating_add(1);
    BayFailed
}

impl Bay for MemoryBay {
    type Disk = Memory;

    ghost use Rattle.disk_memory.specs.Plans.{after_a_call};
    ghost use Rattle.disk_memory.specs.Memories.{as_disk, extent_of, failed_reads, failed_writes, IsNewMemory};
    ghost use Rattle.disk_memory.specs.Fuses.{IsAs};
    ghost use Rattle.disk_memory.specs.Bays.{place_of, failures_of, chosen_calls, CountsUnlessNamed, CountsClose, HasNoDisk};

    ghost tells = { λ b. true };

    ghost place = { place_of };

    ghost fault_count = { failures_of };

    fn create(&mut self, name: &str, pages: u64) -> Result<Memory, BayFailed>
        ensures extent { IfOk result (λ d. extent_of d ≡ pages * PAGE_BYTES) }
        ensures zeros { IfOk result (IsNewMemory (blank (pages * PAGE_BYTES))) }
        ensures absent { OnOk result (place_of self.old name.now ≡ Absent) }
        ensures out { OnOk result (place_of self.new name.now ≡ Out) }
        ensures others { SameBut name.now (place_of self.old) (place_of self.new) }
        ensures refused { OnErr result (place_of self.new name.now ≡ place_of self.old name.now) }
        ensures cause { HasNameCause (place_of self.old name.now ≢ Absent)
            (failures_of self.old) (failures_of self.new) result }

        // A create that was chosen fails, and any other only where the name is there or for want of memory.
        ensures fails { Contains (chosen_calls self.old) 1 → IsErr result }
        ensures counts { CountsUnlessNamed (place_of self.old name.now ≢ Absent)
            self.old self.new result }
    {
        let is_chosen = self.plan.is_next_chosen();
        if self.find(name).is_some() {
            return Err(BayFailed);
        }
        if is_chosen {
            return Err(count_failure(&mut self.failures));
        }
        let Ok(disk) = Memory::new(self.alloc, pages) else {
            return Err(count_failure(&mut self.failures));
        };
        match self.add_entry(name, None) {
            Ok(()) => Ok(disk),
            Err(AllocError) => Err(count_failure(&mut self.failures)),
        }
    }

    fn open(&mut self, name: &str) -> Result<Memory, BayFailed>
        ensures unfailed { IfOk result (IsUnfailed as_disk) }
        ensures same { IfOk result (λ d. Tells (IsAs d) (place_of self.old name.now)) }
        ensures out { OnOk result (place_of self.new name.now ≡ Out) }
        ensures others { SameBut name.now (place_of self.old) (place_of self.new) }
        ensures refused { OnErr result (place_of self.new name.now ≡ place_of self.old name.now) }
        ensures cause { HasNameCause (place_of self.old name.now ≡ Absent)
            (failures_of self.old) (failures_of self.new) result }

        // An open that was chosen fails, and any other only where no disk lies there.
        ensures fails { Contains (chosen_calls self.old) 1 → IsErr result }
        ensures failed { OnErr result
            (Contains (chosen_calls self.old) 1 ⊎ HasNoDisk (place_of self.old name.now)) }
        ensures counts { CountsUnlessNamed (place_of self.old name.now ≡ Absent)
            self.old self.new result }
    {
        let is_chosen = self.plan.is_next_chosen();
        let Some(index) = self.find(name) else {
            return Err(BayFailed);
        };
        if is_chosen {
            return Err(count_failure(&mut self.failures));
        }
        match self.entries[index].disk.take() {
            Some(disk) => Ok(disk.unfailed()),
            None => Err(count_failure(&mut self.failures)),
        }
    }

    fn close(&mut self, name: &str, disk: Memory) -> Result<(), BayFailed>
        ensures home { OnOk result (place_of self.new name.now ≡ Home disk) }
        ensures refused { OnErr result (place_of self.new name.now ≡ place_of self.old name.now) }
        ensures others { SameBut name.now (place_of self.old) (place_of self.new) }
        ensures read_failed { failed_reads disk ≢ 0
            → Rose (failures_of self.old) (failures_of self.new) }
        ensures write_failed { failed_writes disk ≢ 0
            → Rose (failures_of self.old) (failures_of self.new) }
        ensures cause { HasCause (failures_of self.old) (failures_of self.new) result }

        // A close that was chosen fails, and any other only for want of memory, where the name is new.
        ensures fails { Contains (chosen_calls self.old) 1 → IsErr result }
        ensures failed { OnErr result
            (Contains (chosen_calls self.old) 1 ⊎ (place_of self.old name.now ≡ Absent)) }
        ensures counts { CountsClose disk self.old self.new result }
    {
        let disk_failed = disk.read_faults() != 0 || disk.write_faults() != 0;
        let is_closed = !self.plan.is_next_chosen() && self.put_back(name, disk).is_ok();
        if disk_failed || !is_closed {
            count_failure(&mut self.failures);
        }
        if is_closed { Ok(()) } else { Err(BayFailed) }
    }

    fn faults(&self) -> u64 {
        self.failures
    }
}
