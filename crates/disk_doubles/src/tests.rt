ghost use Rattle.std.specs.Prelude.{◌≡◌, ◌<◌, ◌≤◌, ◌*◌, IfOk};
ghost use Rattle.disk_memory.specs.Memories.{extent_of};
ghost use Rattle.disk_doubles.specs.Altering.{disk_below};

use super::*;
use disk_memory::Memory;
use disk_trait::{Bay, Disk, Steps};
use std::alloc::{AllocError, Global};
use std::marker::Brand;
use std::sync::ledger::{Blank, Ledger};
use std::test::*;

/// A page of zeros, but for this byte at place 10.
fn page_with(byte: u8) -> [u8; 4096] {
    let mut page = [0; 4096];
    page[10] = byte;
    page
}

/// A disk whose byte at place 10 is 7, of which that read is to give it with two bits turned, and whose call of that
/// number fails. The bits are such that one of them was set and one was not.
fn altered(alloc: Global, chosen: u64, failing: u64) -> Result<Altered<Memory>, AllocError>
    ensures { IfOk result (λ a. extent_of (disk_below a) ≡ 4096) }
{
    let mut disk = Memory::new(alloc, 1)?;
    let _ = disk.write(10, &[7]);
    disk.fail(failing)?;
    Ok(Altered::new(disk, chosen, 10, 12))
}

/// The byte at place 10 of the page as a read gives it, where all else is zero.
fn byte_read<D: Disk, L: Ledger>(disk: &mut D, steps: &mut Steps<L>) -> Option<u8>
    requires { 4096 ≤ D.extent disk.old }
    ensures { D.extent disk.new ≡ D.extent disk.old }
{
    let mut page = [0; 4096];
    if disk.read(0, &mut page, steps).is_err() {
        return None;
    }
    let byte = page[10];
    if page == page_with(byte) {
        Some(byte)
    } else {
        None
    }
}

/// What three reads give.
fn bytes_read_with<L: Ledger>(disk: &mut Altered<Memory>, blank: Blank) -> [Option<u8>; 3]
    requires size { 4096 ≤ extent_of (disk_below disk.old) }
    requires name { blank.name ≡ L.name }
    requires parts { blank.parts ≡ L.parts }
    requires some { 0 < L.parts }
{
    let mut steps = Steps::<L>::new(blank);
    let first = byte_read(disk, &mut steps);
    let second = byte_read(disk, &mut steps);
    let third = byte_read(disk, &mut steps);
    [first, second, third]
}

/// The same, with a count of steps of its own.
fn bytes_read(disk: &mut Altered<Memory>) -> [Option<u8>; 3]
    requires { 4096 ≤ extent_of (disk_below disk.old) }
{
    bytes_read_with::<Brand>(disk, Blank::new(1))
}

#[test]
fn the_chosen_read_alone_is_altered(rt: HostRuntime) -> Result<(), Fail> {
    let there = Some(7);
    let turned = Some(11);
    for (chosen, failing, given) in [
        (0, 0, [there, there, there]),
        (1, 0, [turned, there, there]),
        (2, 0, [there, turned, there]),
        (4, 0, [there, there, there]),
        (1, 2, [turned, None, there]),
        (2, 2, [there, None, there]),
        (3, 2, [there, None, turned]),
    ] {
        let mut disk = altered(rt.alloc(), chosen, failing)?;
        assert!(rt; !disk.has_altered());
        assert_eq!(rt; bytes_read(&mut disk), given);
        assert_eq!(rt; disk.has_altered(), given.contains(&turned));
        assert_eq!(rt; disk.into_disk().bytes(), &page_with(7)[..]);
    }
    Ok(())
}

/// A disk of one page, of which a call has failed or none has.
fn disk(alloc: Global, has_failed: bool) -> Result<Memory, AllocError> {
    let mut disk = Memory::new(alloc, 1)?;
    if has_failed {
        disk.fail(1)?;
        let _ = disk.sync();
    }
    Ok(disk)
}

/// Which calls of a bay succeed: a create and an open under that name, a second open, and a close of the disk that was
/// handed out; and how often the bay has then failed.
fn answers<B: Bay>(bay: &mut B, name: &str, closes: &str) -> ([bool; 4], u64) {
    let is_made = bay.create(name, 1).is_ok();
    let opened = bay.open(name);
    let is_open = opened.is_ok();
    let is_open_again = bay.open(name).is_ok();
    let is_closed = match opened {
        Ok(disk) => bay.close(closes, disk).is_ok(),
        Err(_) => false,
    };
    ([is_made, is_open, is_open_again, is_closed], bay.faults())
}

#[test]
fn a_sound_disk_is_handed_out_under_its_name(rt: HostRuntime) -> Result<(), Fail> {
    let alloc = rt.alloc();
    for (name, closes, has_failed, wanted, is_kept) in [
        ("grid", "grid", false, ([false, true, false, true], 1), true),
        (
            "grid",
            "other",
            false,
            ([false, true, false, false], 2),
            false,
        ),
        (
            "grid",
            "grid",
            true,
            ([false, false, false, false], 2),
            true,
        ),
        (
            "other",
            "other",
            false,
            ([false, false, false, false], 1),
            true,
        ),
    ] {
        let mut bay = OneBay::new(alloc, "grid", disk(alloc, has_failed)?)?;
        assert_eq!(rt; answers(&mut bay, name, closes), wanted);
        assert_eq!(rt; bay.into_disk().is_some(), is_kept);
    }
    Ok(())
}

#[test]
fn a_disk_that_failed_while_it_was_out_is_taken_back(rt: HostRuntime) -> Result<(), Fail> {
    let alloc = rt.alloc();
    let mut bay = OneBay::new(alloc, "grid", disk(alloc, false)?)?;
    assert!(rt; bay.open("grid").is_ok());
    assert!(rt; bay.close("grid", disk(alloc, true)?).is_ok());
    assert_eq!(rt; bay.faults(), 1);
    assert!(rt; bay.open("grid").is_err());
    assert_eq!(rt; bay.faults(), 2);
    Ok(())
}
