//! Roots that are written while the machine stops, or a call fails.
ghost use Rattle.std.specs.Prelude.{◌≡◌};
ghost use Rattle.grid_types.specs.Shapes.{file_pages};

use super::*;
use disk_memory::{Fused, Keep};

/// Whether the writing of roots 1 and 2 behind root 0, cut off after so many calls, leaves the newest root that was
/// answered, or the next. Root 1 takes 16 calls, and root 2 takes 17, since it closes an open gate.
fn is_old_or_new<L: Ledger>(
    alloc: Global,
    geometry: &Geometry,
    calls: u64,
    keep: Keep,
    steps: &mut Steps<L>,
) -> Result<bool, AllocError>
    requires attributes { geometry.now.shape.k ≡ ATTRIBUTES }
    requires pages { file_pages geometry.now.shape ≡ SMALL }
{
    let mut disk = small_file(alloc)?;
    let Some(root) = early(alloc, &mut disk, geometry, steps) else {
        return Ok(false);
    };
    let mut disk = Fused::new(disk, calls);
    let root = next(root, geometry);
    let mut done = u64::from(replace(&mut disk, geometry, &root, steps));
    let root = next(root, geometry);
    done += u64::from(replace(&mut disk, geometry, &root, steps));
    let mut image = disk.image(keep)?;
    let told = told(alloc, &mut image, geometry, steps).number;
    let due = u64::from(calls >= 16) + u64::from(calls >= 33);
    Ok(done == due && told <= 2 && (told == done || told == done + 1))
}

/// Whether that holds at each call, whatever becomes of what is not on the disk.
pub fn leaves_a_root<L: Ledger>(alloc: Global, steps: &mut Steps<L>) -> Result<bool, AllocError> {
    let geometry = small();
    let mut all = true;
    for calls in 0..35 {
        all &= is_old_or_new(alloc, &geometry, calls, Keep::All, steps)?;
        all &= is_old_or_new(alloc, &geometry, calls, Keep::None, steps)?;
        all &= is_old_or_new(alloc, &geometry, calls, Keep::Changed, steps)?;
    }
    Ok(all)
}

/// Whether a root that is tried again with other content, after an attempt that failed at one call, and is cut off after
/// so many, leaves the old root, that of the first attempt, or this one. Their sessions are 4, 5 and 6.
fn is_old_or_tried<L: Ledger>(
    alloc: Global,
    geometry: &Geometry,
    failing: u64,
    calls: u64,
    keep: Keep,
    steps: &mut Steps<L>,
) -> Result<bool, AllocError>
    requires attributes { geometry.now.shape.k ≡ ATTRIBUTES }
    requires pages { file_pages geometry.now.shape ≡ SMALL }
{
    let mut disk = small_file(alloc)?;
    if !advance(alloc, &mut disk, geometry, steps) {
        return Ok(false);
    }
    let Some(root) = early(alloc, &mut disk, geometry, steps) else {
        return Ok(false);
    };
    disk.fail(failing)?;
    let root = next(root, geometry);
    let failed = !replace(&mut disk, geometry, &root, steps);
    let mut disk = Fused::new(disk, calls);
    let root = renewed(root, geometry);
    let answered = replace(&mut disk, geometry, &root, steps);
    let mut image = disk.image(keep)?;
    let told = told(alloc, &mut image, geometry, steps).session;
    Ok(failed && told >= 4 && told <= 6 && (told == 6 || !answered))
}

/// Calls that the first attempt fails at, and after which the second is cut off: of closing, of the table area, of the
/// fields, and of opening.
const CALLS: [u64; 6] = [3, 9, 13, 15, 16, 17];

/// Whether that holds at each two of these calls, where what is not on the disk is lost, or torn.
pub fn may_be_tried_again<L: Ledger>(
    alloc: Global,
    steps: &mut Steps<L>,
) -> Result<bool, AllocError> {
    let geometry = small();
    let mut all = true;
    for failing in CALLS {
        for calls in CALLS {
            all &= is_old_or_tried(alloc, &geometry, failing, calls, Keep::None, steps)?;
            all &= is_old_or_tried(alloc, &geometry, failing, calls, Keep::Changed, steps)?;
        }
    }
    Ok(all)
}
