ghost use Rattle.std.specs.Prelude.{◌≡◌, ◌<◌, ◌*◌, IfOk};
ghost use Rattle.disk_memory.specs.Memories.{extent_of};
ghost use Rattle.disk_memory.specs.Fuses.{disk_of};

use super::*;
use disk_trait::{Disk, DiskFailed, Steps};
use std::alloc::{AllocError, Global};
use std::marker::Brand;
use std::sync::ledger::{Blank, Ledger};
use std::test::*;

/// A disk of two pages that makes so many calls.
fn fused(alloc: Global, calls: u64) -> Result<Fused, AllocError>
    ensures { IfOk result (λ f. extent_of (disk_of f) ≡ 2 * 4096) }
{
    Ok(Fused::new(Memory::new(alloc, 2)?, calls))
}

/// Five bytes of the first page are written and synced, and then three, of which two are the same again, and last some
/// of the second page.
fn write_some(disk: &mut Fused) -> Result<(), DiskFailed>
    requires { extent_of (disk_of disk.old) ≡ 2 * 4096 }
{
    disk.write(10, &[1, 2, 3, 4, 5])?;
    disk.sync()?;
    disk.write(12, &[3, 9, 5])?;
    disk.write(4096, &[0, 7])
}

/// The bytes that a crash leaves at those places, where the disk makes so many calls.
fn left_after(alloc: Global, calls: u64, keep: Keep) -> Result<[[u8; 6]; 2], AllocError> {
    let mut disk = fused(alloc, calls)?;
    let _ = write_some(&mut disk);
    let image = disk.image(keep)?;
    let bytes = image.bytes();
    let mut first = [0; 6];
    let mut second = [0; 6];
    for i in 0..6 {
        if let Some(byte) = bytes.get(10 + i) {
            first[i] = *byte;
        }
        if let Some(byte) = bytes.get(4096 + i) {
            second[i] = *byte;
        }
    }
    Ok([first, second])
}

const BLANK: [u8; 6] = [0; 6];

#[test]
fn a_crash_leaves_what_is_kept(rt: HostRuntime) -> Result<(), Fail> {
    let alloc = rt.alloc();
    let first = [1, 2, 3, 4, 5, 0];
    let last = [1, 2, 3, 9, 5, 0];
    for keep in [Keep::All, Keep::None, Keep::Changed] {
        assert_eq!(rt; left_after(alloc, 0, keep)?, [BLANK, BLANK]);
        assert_eq!(rt; left_after(alloc, 2, keep)?, [first, BLANK]);
    }
    assert_eq!(rt; left_after(alloc, 1, Keep::All)?, [first, BLANK]);
    assert_eq!(rt; left_after(alloc, 1, Keep::None)?, [BLANK, BLANK]);
    assert_eq!(rt;
        left_after(alloc, 1, Keep::Changed)?,
        [[3, 3, 2, 5, 4, 0], BLANK]
    );
    assert_eq!(rt;
        left_after(alloc, 9, Keep::All)?,
        [last, [0, 7, 0, 0, 0, 0]]
    );
    assert_eq!(rt; left_after(alloc, 9, Keep::None)?, [first, BLANK]);
    assert_eq!(rt;
        left_after(alloc, 9, Keep::Changed)?,
        [[1, 2, 2, 8, 4, 0], [1, 6, 0, 0, 0, 0]]
    );
    Ok(())
}

#[test]
fn calls_behind_the_fuse_are_counted(rt: HostRuntime) -> Result<(), Fail> {
    let mut disk = fused(rt.alloc(), 3)?;
    assert!(rt; write_some(&mut disk).is_err());
    assert!(rt; disk.sync().is_err());
    assert_eq!(rt; disk.write_faults(), 2);
    assert_eq!(rt; disk.read_faults(), 0);
    Ok(())
}

/// Which of a write, a read, a sync and another read are made, and how many reads fail, and how many writes and syncs,
/// where the disk makes so many calls.
fn made_with<L: Ledger>(
    alloc: Global,
    calls: u64,
    blank: Blank,
) -> Result<([bool; 4], [u64; 2]), AllocError>
    requires name { blank.name ≡ L.name }
    requires parts { blank.parts ≡ L.parts }
    requires some { 0 < L.parts }
{
    let mut disk = fused(alloc, calls)?;
    let mut steps = Steps::<L>::new(blank);
    let mut page = [0; 4096];
    let is_written = disk.write(10, &[7]).is_ok();
    let is_read = disk.read(0, &mut page, &mut steps).is_ok() && page[10] == 7;
    let is_synced = disk.sync().is_ok();
    let is_read_again = disk.read(1, &mut page, &mut steps).is_ok() && page[10] == 0;
    let made = [is_written, is_read, is_synced, is_read_again];
    Ok((made, [disk.read_faults(), disk.write_faults()]))
}

/// The same, with a count of steps of its own.
fn made(alloc: Global, calls: u64) -> Result<([bool; 4], [u64; 2]), AllocError> {
    made_with::<Brand>(alloc, calls, Blank::new(1))
}

#[test]
fn a_read_is_a_call_too(rt: HostRuntime) -> Result<(), Fail> {
    let alloc = rt.alloc();
    assert_eq!(rt; made(alloc, 0)?, ([false, false, false, false], [2, 2]));
    assert_eq!(rt; made(alloc, 1)?, ([true, false, false, false], [2, 1]));
    assert_eq!(rt; made(alloc, 2)?, ([true, true, false, false], [1, 1]));
    assert_eq!(rt; made(alloc, 3)?, ([true, true, true, false], [1, 0]));
    assert_eq!(rt; made(alloc, 4)?, ([true, true, true, true], [0, 0]));
    Ok(())
}

/// A disk of two pages of which that call is to fail.
fn failing(alloc: Global, call: u64) -> Result<Fused, AllocError>
    ensures { IfOk result (λ f. extent_of (disk_of f) ≡ 2 * 4096) }
{
    let mut disk = Memory::new(alloc, 2)?;
    disk.fail(call)?;
    Ok(Fused::new(disk, 9))
}

/// What a crash leaves of three bytes that were synced, of one that was written over the second of them, and of a write
/// over the third and the two behind it that failed.
fn left_after_failure(alloc: Global, keep: Keep) -> Result<Memory, AllocError> {
    let mut disk = failing(alloc, 4)?;
    let _ = disk.write(10, &[1, 2, 3]);
    let _ = disk.sync();
    let _ = disk.write(11, &[8]);
    let _ = disk.write(12, &[9, 9, 9]);
    disk.image(keep)
}

/// Two pages of zeros, but for these bytes.
fn pages_with(bytes: &[u8; 5]) -> [u8; 8192] {
    let mut pages = [0; 8192];
    pages[10..15].copy_from_slice(bytes);
    pages
}

#[test]
fn a_failed_write_may_leave_anything_in_its_range(rt: HostRuntime) -> Result<(), Fail> {
    let alloc = rt.alloc();
    for (keep, bytes) in [
        (Keep::All, [1, 8, 3, 0, 0]),
        (Keep::None, [1, 2, 3, 0, 0]),
        (Keep::Changed, [1, 9, 2, 1, 1]),
    ] {
        let image = left_after_failure(alloc, keep)?;
        assert_eq!(rt; image.bytes(), &pages_with(&bytes)[..]);
    }
    Ok(())
}
