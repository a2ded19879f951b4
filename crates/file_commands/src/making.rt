//! A file is made under a name.
ghost use Rattle.std.specs.Prelude.{◌≡◌, ◌↔◌, ◌*◌, ◌≤◌, IsTrue, IfOk, OnOk, IsErrOf, false};
ghost use Rattle.grid_types.specs.Shapes.{file_pages, is_shape};
ghost use Rattle.grid_types.specs.declared.sizes.TheConstants.{PAGE_BYTES};
ghost use Rattle.disk_trait.specs.Bay.{Absent, Tells, SameElsewhere, IsUnfailed};
ghost use Rattle.file_commands.specs.Made.{IsMade, IsTaken, IsDeviceFault};
ghost use Rattle.file_commands.specs.declared.making.MakeFault.TheVariants.{BadShape, Device};

use disk_trait::{Bay, BayFailed, Disk};
use file_making::make;
use grid_types::Shape;

/// Why a file is not made.
#[derive(Clone, Copy, Debug, PartialEq, Eq)]
pub enum MakeFault {
    /// The shape is not lawful.
    BadShape,
    /// The name is taken, or the bay or its disk failed.
    Device,
}

/// Makes a new file of a shape under a name that is free, and answers how many pages it has. After Ok it is there after a
/// crash too. After `Device` it is not said what is under the name, unless the name was taken: then that stays.
pub fn make_file<B: Bay>(bay: &mut B, name: &str, shape: Shape) -> Result<u64, MakeFault>
    ensures made { IsTrue (B.tells bay.old)
        → OnOk result (Tells (IsMade B.Disk.Disk shape) (B.place bay.new name.now)) }
    ensures absent { IsTrue (B.tells bay.old) → OnOk result (B.place bay.old name.now ≡ Absent) }
    ensures pages { IfOk result (λ n. n ≡ file_pages shape) }
    ensures lawful { IsErrOf result BadShape ↔ (is_shape shape ≡ false) }
    ensures untouched { IsErrOf result BadShape → bay.new ≡ bay.old }
    ensures device { IsErrOf result Device → IsDeviceFault B.Bay name.now bay.old bay.new }
    ensures taken { IsTaken B.Bay bay.old name.now
        → B.place bay.new name.now ≡ B.place bay.old name.now }
    ensures elsewhere { SameElsewhere B.tells B.place name.now bay.old bay.new }
{
    if !shape.lawful() {
        return Err(MakeFault::BadShape);
    }
    let pages = shape.file_pages();
    let before = bay.faults();
    let mut disk = match bay.create(name, pages) {
        Ok(disk) => disk,
        Err(BayFailed) => return Err(MakeFault::Device),
    };
    let made = make(&mut disk, &shape).is_ok();
    match bay.close(name, disk) {
        Ok(()) if made & (bay.faults() == before) => Ok(pages),
        _ => Err(MakeFault::Device),
    }
}
