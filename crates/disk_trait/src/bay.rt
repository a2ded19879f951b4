//! A bay of disks, each under a name.
ghost use Rattle.std.specs.Prelude.{◌≡◌, ◌≢◌, ◌*◌, Bool, List, ℕ, IsTrue, IfOk, OnOk, OnErr};
ghost use Rattle.grid_types.specs.declared.sizes.TheConstants.{PAGE_BYTES};
ghost use Rattle.disk_trait.specs.Causes.{HasCause, Rose};
ghost use Rattle.disk_trait.specs.Bay.{BayPlace, Absent, Out, Home, HasNameCause, SameElsewhere, Tells, IsUnfailed, IsNew, TellsAll};

use crate::Disk;
use thiserror::Error;

/// A bay failed.
#[derive(Clone, Copy, Debug, PartialEq, Eq, Error)]
#[error("BayFailed")]
pub struct BayFailed;

/// Where disks are made, handed out by name, and put back.
///
/// Its count of failures never falls. It rises at each failure but one: that a bay which tells its names has to make a
/// name that is there, or to open one that is absent. There the count stays, also where the device would have failed.
pub trait Bay {
    /// The disks that it hands out.
    type Disk: Disk + Send;

    /// Whether the bay tells its names, and which disk lies under each.
    ghost tells: { Self → Bool };

    /// What is under a name: nothing, a disk that is out, or a disk that lies there.
    ghost place: { Self → List ℕ → BayPlace Self.Disk };

    /// How often it has failed.
    ghost fault_count: { Self → ℕ };

    /// Makes a disk of that many pages, all zeros, and hands it out.
    fn create(&mut self, name: &str, pages: u64) -> Result<Self::Disk, BayFailed>
        ensures extent { IfOk result (λ d. Self.Disk.extent d ≡ pages * PAGE_BYTES) }
        ensures unfailed { IfOk result (IsUnfailed Self.Disk.Disk) }
        ensures zeros { IsTrue (tells self.old)
            → IfOk result (IsNew Self.Disk.Disk (pages * PAGE_BYTES)) }
        ensures absent { IsTrue (tells self.old) → OnOk result (place self.old name.now ≡ Absent) }
        ensures out { IsTrue (tells self.old) → OnOk result (place self.new name.now ≡ Out) }
        ensures refused { IsTrue (tells self.old)
            → OnErr result (place self.new name.now ≡ place self.old name.now) }
        ensures elsewhere { SameElsewhere tells place name.now self.old self.new }
        ensures cause { HasNameCause (IsTrue (tells self.old) × (place self.old name.now ≢ Absent))
            (fault_count self.old) (fault_count self.new) result };

    /// Hands out the disk of that name, with both its counts 0. A disk that is out is not handed out again.
    fn open(&mut self, name: &str) -> Result<Self::Disk, BayFailed>
        ensures unfailed { IfOk result (IsUnfailed Self.Disk.Disk) }
        ensures same { IsTrue (tells self.old)
            → IfOk result (λ d. Tells (TellsAll Self.Disk.Disk d) (place self.old name.now)) }
        ensures out { IsTrue (tells self.old) → OnOk result (place self.new name.now ≡ Out) }
        ensures refused { IsTrue (tells self.old)
            → OnErr result (place self.new name.now ≡ place self.old name.now) }
        ensures elsewhere { SameElsewhere tells place name.now self.old self.new }
        ensures cause { HasNameCause (IsTrue (tells self.old) × (place self.old name.now ≡ Absent))
            (fault_count self.old) (fault_count self.new) result };

    /// Puts a disk under a name. After a failure it is not said what is there.
    fn close(&mut self, name: &str, disk: Self::Disk) -> Result<(), BayFailed>
        ensures home { IsTrue (tells self.old) → OnOk result (place self.new name.now ≡ Home disk) }
        ensures read_failed { Self.Disk.read_count disk ≢ 0
            → Rose (fault_count self.old) (fault_count self.new) }
        ensures write_failed { Self.Disk.write_count disk ≢ 0
            → Rose (fault_count self.old) (fault_count self.new) }
        ensures elsewhere { SameElsewhere tells place name.now self.old self.new }
        ensures cause { HasCause (fault_count self.old) (fault_count self.new) result };

    /// How often it has failed, or 18446744073709551615 where there were more.
    fn faults(&self) -> u64
        ensures { result ≡ fault_count self.now };
}
