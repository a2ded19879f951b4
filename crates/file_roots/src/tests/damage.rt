//! Pages that are damaged, and which is named.
ghost use Rattle.std.specs.Prelude.{◌≡◌, ◌<◌, ◌≤◌, ◌*◌};
ghost use Rattle.grid_types.specs.declared.sizes.TheConstants.{PAGE_BYTES};
ghost use Rattle.grid_types.specs.Shapes.{file_pages};
ghost use Rattle.disk_memory.specs.Memories.{extent_of};

use super::*;

/// A byte that is another, and what is told then: the number of the newest root, or 1000 and the page that is damaged.
#[derive(Clone, Copy)]
struct Case {
    page: u32,
    offset: u32,
    byte: u8,
    told: u64,
}

const fn changed(page: u32, offset: u32, byte: u8, told: u64) -> Case
    ensures { result ≡ record { page = page; offset = offset; byte = byte; told = told } }
{
    Case {
        page,
        offset,
        byte,
        told,
    }
}

/// Writes a byte, and gives the one that stood there.
fn put_byte(disk: &mut Memory, at: u64, byte: u8) -> u8
    requires inside { at < extent_of disk.old }
    ensures size { extent_of disk.new ≡ extent_of disk.old }
{
    let kept = disk.bytes()[at as usize];
    let _ = disk.write(at, &[byte]);
    kept
}

/// Whether a byte that is changed alone has the case's verdict.
fn is_judged<L: Ledger>(
    alloc: Global,
    disk: &mut Memory,
    geometry: &Geometry,
    case: Case,
    steps: &mut Steps<L>,
) -> bool
    requires attributes { geometry.now.shape.k ≡ ATTRIBUTES }
    requires size { file_pages geometry.now.shape * PAGE_BYTES ≤ extent_of disk.old }
    ensures size { extent_of disk.new ≡ extent_of disk.old }
{
    let at = u64::from(case.page) * PAGE_BYTES as u64 + u64::from(case.offset);
    if at >= disk.size() {
        return false;
    }
    let kept = put_byte(disk, at, case.byte);
    let told = told(alloc, disk, geometry, steps).number;
    let _ = put_byte(disk, at, kept);
    told == case.told
}

/// Root 2 is the newest, on header page 0 and on the pages from 2 on; root 1 is on header page 1 and on those from 12 on.
fn small_cases() -> [Case; 20] {
    [
        changed(0, 79, 2, 2),
        changed(0, 64, 0, 1),
        changed(0, 64, 255, 1),
        changed(1, 64, 0, 2),
        changed(1, 79, 2, 1001),
        changed(0, 79, 3, 1000),
        changed(0, 123, 2, 1000),
        changed(1, 123, 2, 1001),
        changed(2, 103, 3, 1002),
        changed(2, 103, 0, 1002),
        changed(3, 102, 0, 1003),
        changed(4, 11, 1, 1004),
        changed(9, 200, 1, 1009),
        changed(10, 99, 9, 1010),
        changed(11, 99, 0, 1011),
        changed(11, 99, 8, 1011),
        changed(11, 23, 1, 1011),
        changed(11, 4095, 1, 1011),
        changed(0, 127, 2, 1011),
        changed(14, 103, 3, 2),
    ]
}

/// Root 0 is the newest. A data page that two numbers name is damage on the page of the later number.
fn large_cases() -> [Case; 5] {
    [
        changed(12, 299, 3, 0),
        changed(12, 299, 1, 1012),
        changed(11, 99, 2, 1012),
        changed(11, 99, 0, 1011),
        changed(0, 127, 1, 1012),
    ]
}

/// Whether each case of a small file has its verdict, and page 0 is named where no gate is open.
pub fn is_named_in_a_small_file<L: Ledger>(
    alloc: Global,
    steps: &mut Steps<L>,
) -> Result<bool, AllocError> {
    let geometry = small();
    let mut disk = small_file(alloc)?;
    let mut all = advance(alloc, &mut disk, &geometry, steps);
    all &= advance(alloc, &mut disk, &geometry, steps);
    for case in small_cases() {
        all &= is_judged(alloc, &mut disk, &geometry, case, steps);
    }
    let _ = put_byte(&mut disk, 64, 0);
    let _ = put_byte(&mut disk, 4096 + 64, 0);
    Ok(all & (told(alloc, &mut disk, &geometry, steps).number == 1000))
}

/// Whether each case of a large file has its verdict.
pub fn is_named_in_a_large_file<L: Ledger>(
    alloc: Global,
    steps: &mut Steps<L>,
) -> Result<bool, AllocError> {
    let geometry = large();
    let mut disk = large_file(alloc)?;
    let mut all = true;
    for case in large_cases() {
        all &= is_judged(alloc, &mut disk, &geometry, case, steps);
    }
    Ok(all)
}
