//! Roots that are written and read in turn.

use super::*;

/// Whether root 0 of a small file and two roots behind it are written and read, with the boundaries of root 0.
pub fn takes_turns<L: Ledger>(alloc: Global, steps: &mut Steps<L>) -> Result<bool, AllocError> {
    let geometry = small();
    let mut disk = small_file(alloc)?;
    let mut all = told(alloc, &mut disk, &geometry, steps).number == 0;
    all &= advance(alloc, &mut disk, &geometry, steps);
    all &= told(alloc, &mut disk, &geometry, steps).number == 1;
    all &= advance(alloc, &mut disk, &geometry, steps);
    let last = told(alloc, &mut disk, &geometry, steps);
    Ok(all & (last.number == 2) & (last.session == 5) & (last.boundaries == 501))
}

/// Whether a root whose bucket table takes two pages is written and read.
pub fn takes_two_pages<L: Ledger>(alloc: Global, steps: &mut Steps<L>) -> Result<bool, AllocError> {
    let geometry = large();
    let mut disk = large_file(alloc)?;
    let all = advance(alloc, &mut disk, &geometry, steps);
    let last = told(alloc, &mut disk, &geometry, steps);
    Ok(all & (last.number == 1) & (last.count == 1100) & (last.pages == [1, 2, NOWHERE]))
}

/// Whether each read of the newest root that fails is a fault of reading.
pub fn tells_faults<L: Ledger>(alloc: Global, steps: &mut Steps<L>) -> Result<bool, AllocError> {
    let geometry = small();
    let mut all = true;
    for call in 1..13 {
        let mut disk = small_file(alloc)?;
        disk.fail(call)?;
        let read = newest(alloc, &mut disk, &geometry, steps);
        all &= matches!(read, Err(Refusal::ReadFault));
        all &= told(alloc, &mut disk, &geometry, steps).number == 0;
    }
    Ok(all)
}

/// Whether the header page of root 1, written with a failure at each of its calls, leaves root 0 or root 1 as the newest,
/// and once it is closed again is written.
pub fn writes_headers_again<L: Ledger>(
    alloc: Global,
    steps: &mut Steps<L>,
) -> Result<bool, AllocError> {
    let geometry = small();
    let mut all = true;
    for call in 1..5 {
        let mut disk = small_file(alloc)?;
        let Some(root) = early(alloc, &mut disk, &geometry, steps) else {
            return Ok(false);
        };
        let root = next(root, &geometry);
        all &= write_area(&mut disk, &geometry, &root).is_ok();
        disk.fail(call)?;
        all &= write_header(&mut disk, &geometry, &header(1, 4, 1)).is_err();
        all &= told(alloc, &mut disk, &geometry, steps).number <= 1;
        all &= close_root(&mut disk, &geometry, 1, steps).is_ok();
        all &= write_header(&mut disk, &geometry, &header(1, 4, 1)).is_ok();
        all &= told(alloc, &mut disk, &geometry, steps).number == 1;
    }
    Ok(all)
}
