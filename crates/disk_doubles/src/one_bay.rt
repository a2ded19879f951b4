//! A bay of one name.
ghost use Rattle.std.specs.Prelude.{◌≡◌, ◌≢◌, ◌↔◌, ◌≤◌, true, IsTrue, IfOk, OnOk, OnErr};
ghost use Rattle.std.specs.Str.{bytes_eq};
ghost use Rattle.disk_trait.specs.Bay.{Absent, Out, Home, SameBut, IsUnfailed, HasNameCause};
ghost use Rattle.disk_trait.specs.Causes.{HasCause, Rose};
ghost use Rattle.disk_doubles.specs.Single.{HasFailed};

use disk_trait::{Bay, BayFailed, Disk};
use std::alloc::{AllocError, Global};

/// A bay with any one disk under one name, which it hands out and takes back. It makes no disk: a create under its name is
/// refused by the name, and one under any other name fails. A close under another name fails too, and the disk is lost.
///
/// A disk whose calls have failed is taken back, as the bay counts, and not handed out again.
#[derive(Drop)]
pub struct OneBay<D: Disk> {
    name: String,
    disk: Option<D>,
    failures: u64,
}

impl<D: Disk> OneBay<D> {
    ghost use Rattle.disk_doubles.specs.Single.{name_of, place_of_disk, place_of, failures_of};

    /// The bay that has the disk under the name. Where there is no memory for the name the disk is lost.
    pub fn new(alloc: Global, name: &str, disk: D) -> Result<OneBay<D>, AllocError>
        ensures name { IfOk result (λ b. name_of b ≡ name.now) }
        ensures home { IfOk result (λ b. place_of b name.now ≡ Home disk) }
        ensures failures { IfOk result (λ b. failures_of b ≡ 0) }
    {
        Ok(OneBay {
            name: String::from_str(alloc, name)?,
            disk: Some(disk),
            failures: 0,
        })
    }

    /// The disk, unless it is out.
    pub fn into_disk(self) -> Option<D>
        ensures { place_of_disk result ≡ place_of self (name_of self) }
    {
        self.disk
    }

    /// Whether this is the name.
    fn is_named(&self, name: &str) -> bool
        ensures { result ≡ bytes_eq (name_of self.now) name.now }
    {
        self.name.as_str() == name
    }

    /// Counts a failure.
    fn count_failure(&mut self) -> BayFailed
        ensures rose { Rose (failures_of self.old) (failures_of self.new) }
        ensures later { failures_of self.old ≤ failures_of self.new }
        ensures name { self.new.name ≡ self.old.name }
        ensures disk { self.new.disk ≡ self.old.disk }
    {
        self.failures = self.failures.saturating_add(1);
        BayFailed
    }
}

/// Whether a call of a disk has failed.
fn has_failed<D: Disk>(disk: &D) -> bool
    ensures { IsTrue result ↔ HasFailed D.Disk disk.now }
{
    disk.read_faults() != 0 || disk.write_faults() != 0
}

impl<D: Disk + Send> Bay for OneBay<D> {
    type Disk = D;

    ghost use Rattle.disk_doubles.specs.Single.{place_of, failures_of, HasNoSoundDisk};

    ghost tells = { λ b. true };

    ghost place = { place_of };

    ghost fault_count = { failures_of };

    fn create(&mut self, name: &str, pages: u64) -> Result<D, BayFailed> {
        let _ = pages;
        if self.is_named(name) {
            return Err(BayFailed);
        }
        Err(self.count_failure())
    }

    fn open(&mut self, name: &str) -> Result<D, BayFailed>
        ensures unfailed { IfOk result (IsUnfailed D.Disk) }
        ensures same { IfOk result (λ d. place_of self.old name.now ≡ Home d) }
        ensures out { OnOk result (place_of self.new name.now ≡ Out) }
        ensures refused { OnErr result (place_of self.new name.now ≡ place_of self.old name.now) }
        ensures others { SameBut name.now (place_of self.old) (place_of self.new) }
        ensures cause { HasNameCause (place_of self.old name.now ≡ Absent)
            (failures_of self.old) (failures_of self.new) result }

        // An open fails only where no disk lies there, or a call of the one that does has failed.
        ensures failed { OnErr result
            (HasNoSoundDisk D.Disk (place_of self.old name.now)) }
        ensures uncounted { OnOk result (failures_of self.new ≡ failures_of self.old) }
    {
        if !self.is_named(name) {
            return Err(BayFailed);
        }
        let Some(disk) = self.disk.take() else {
            return Err(self.count_failure());
        };
        if has_failed(&disk) {
            self.disk = Some(disk);
            return Err(self.count_failure());
        }
        Ok(disk)
    }

    fn close(&mut self, name: &str, disk: D) -> Result<(), BayFailed>
        ensures home { OnOk result (place_of self.new name.now ≡ Home disk) }
        ensures refused { OnErr result (place_of self.new name.now ≡ place_of self.old name.now) }
        ensures others { SameBut name.now (place_of self.old) (place_of self.new) }
        ensures read_failed { D.read_count disk ≢ 0
            → Rose (failures_of self.old) (failures_of self.new) }
        ensures write_failed { D.write_count disk ≢ 0
            → Rose (failures_of self.old) (failures_of self.new) }
        ensures cause { HasCause (failures_of self.old) (failures_of self.new) result }

        // A close fails under another name alone, and otherwise counts a disk of which a call has failed.
        ensures failed { OnErr result (place_of self.old name.now ≡ Absent) }
        ensures uncounted { OnOk result (D.read_count disk ≡ 0 → D.write_count disk ≡ 0
            → failures_of self.new ≡ failures_of self.old) }
    {
        let disk_failed = has_failed(&disk);
        if self.is_named(name) {
            self.disk = Some(disk);
            if disk_failed {
                self.count_failure();
            }
            Ok(())
        } else {
            Err(self.count_failure())
        }
    }

    fn faults(&self) -> u64 {
        self.failures
    }
}
