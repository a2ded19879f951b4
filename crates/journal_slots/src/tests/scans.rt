//! Scans of a half of the journal.
ghost use Rattle.std.specs.Prelude.{◌≡◌, ◌<◌, ◌≤◌, ◌*◌, IsTrue, IfOk};
ghost use Rattle.grid_types.specs.Shapes.{file_pages};
ghost use Rattle.disk_memory.specs.Memories.{extent_of};

use super::*;
use std::test::*;

/// Whether a scan finds nothing.
fn is_none(found: Result<Scan<2>, Refusal>) -> bool {
    match found {
        Ok(scan) => scan.batches.list().is_empty(),
        Err(_) => false,
    }
}

/// Whether a scan finds one batch, of that session and at that place.
fn is_one(found: Result<Scan<2>, Refusal>, session: u64, first: u64) -> bool {
    match found {
        Ok(scan) => {
            matches!(scan.batches.list(), [batch] if is_of_each_kind(batch, session, first))
        }
        Err(_) => false,
    }
}

/// Whether a scan finds two batches of that session, first the one at `first` and then the one at `second`.
fn are_two(found: Result<Scan<2>, Refusal>, session: u64, first: u64, second: u64) -> bool {
    let Ok(scan) = found else {
        return false;
    };
    let [a, b] = scan.batches.list() else {
        return false;
    };
    is_of_each_kind(a, session, first) && is_of_each_kind(b, session, second)
}

#[test]
fn a_scan_finds_its_session(rt: HostRuntime) -> Result<(), Fail> {
    let geometry = small().ok_or("the shape is lawful")?;
    let mut disk = Memory::new(rt.alloc(), geometry.shape.file_pages())?;
    assert!(rt; is_damaged(scan(rt.alloc(), &mut disk, &geometry, 7), 27));
    assert!(rt; close_all(&mut disk, &geometry));
    assert!(rt; is_none(scan(rt.alloc(), &mut disk, &geometry, 7)));
    assert!(rt; commit(&mut disk, &geometry, 0, 5, 9));
    assert!(rt; commit(&mut disk, &geometry, 2, 7, 9));
    assert!(rt; is_one(scan(rt.alloc(), &mut disk, &geometry, 7), 7, 9));
    assert!(rt; is_one(scan(rt.alloc(), &mut disk, &geometry, 5), 5, 9));
    assert!(rt; is_none(scan(rt.alloc(), &mut disk, &geometry, 6)));
    Ok(())
}

#[test]
fn batches_come_in_the_order_of_their_slots(rt: HostRuntime) -> Result<(), Fail> {
    let geometry = small().ok_or("the shape is lawful")?;
    let mut disk = closed(rt.alloc(), &geometry)?;
    assert!(rt; commit(&mut disk, &geometry, 2, 7, 9));
    assert!(rt; commit(&mut disk, &geometry, 1, 5, 14));
    assert!(rt; commit(&mut disk, &geometry, 0, 7, 19));
    assert!(rt; are_two(scan(rt.alloc(), &mut disk, &geometry, 7), 7, 19, 9));
    Ok(())
}

/// Whether a scan finds nothing where the gates of slots 0 and 1 have this value.
fn is_closed_at(alloc: Global, disk: &mut Memory, geometry: &Geometry, gate: u8) -> bool
    requires size { file_pages geometry.now.shape * 4096 ≤ extent_of disk.old }
    ensures { extent_of disk.new ≡ extent_of disk.old }
{
    let first = put_gate(disk, geometry, 0, gate);
    let second = put_gate(disk, geometry, 1, gate);
    let none = is_none(scan(alloc, disk, geometry, 7));
    first && second && none
}

#[test]
fn a_gate_is_open_where_it_is_1(rt: HostRuntime) -> Result<(), Fail> {
    let geometry = small().ok_or("the shape is lawful")?;
    let mut disk = closed(rt.alloc(), &geometry)?;
    assert!(rt; commit(&mut disk, &geometry, 0, 7, 9));
    assert!(rt; is_closed_at(rt.alloc(), &mut disk, &geometry, 0));
    assert!(rt; is_closed_at(rt.alloc(), &mut disk, &geometry, 2));
    assert!(rt; is_closed_at(rt.alloc(), &mut disk, &geometry, 255));
    assert!(rt; put_gate(&mut disk, &geometry, 0, 1));
    assert!(rt; is_one(scan(rt.alloc(), &mut disk, &geometry, 7), 7, 9));
    assert!(rt; put_gate(&mut disk, &geometry, 1, 1));
    assert!(rt; is_damaged(scan(rt.alloc(), &mut disk, &geometry, 7), 29));
    Ok(())
}

#[test]
fn a_cleared_half_has_no_batches(rt: HostRuntime) -> Result<(), Fail> {
    let geometry = small().ok_or("the shape is lawful")?;
    let mut disk = closed(rt.alloc(), &geometry)?;
    assert!(rt; commit(&mut disk, &geometry, 0, 7, 9));
    assert!(rt; commit(&mut disk, &geometry, 2, 7, 14));
    assert!(rt; clear_half(&mut disk, &geometry, Half::Second, 0).is_ok());
    assert!(rt; are_two(scan(rt.alloc(), &mut disk, &geometry, 7), 7, 9, 14));
    assert!(rt; clear_half(&mut disk, &geometry, Half::Second, 2).is_ok());
    assert!(rt; is_one(scan(rt.alloc(), &mut disk, &geometry, 7), 7, 14));
    let at = geometry.slot_page(Half::Second, 2) as u64 * 4096;
    assert!(rt; disk.write(at + 5, &[17]).is_ok());
    assert!(rt; is_damaged(scan(rt.alloc(), &mut disk, &geometry, 7), 30));
    assert!(rt; clear_half(&mut disk, &geometry, Half::Second, 3).is_ok());
    assert!(rt; is_none(scan(rt.alloc(), &mut disk, &geometry, 7)));
    Ok(())
}

#[test]
fn slots_are_in_use_up_to_the_last_gate_that_is_not_0(rt: HostRuntime) -> Result<(), Fail> {
    let geometry = small().ok_or("the shape is lawful")?;
    let mut disk = closed(rt.alloc(), &geometry)?;
    assert!(rt; finds(scan(rt.alloc(), &mut disk, &geometry, 7), 0, 0));
    assert!(rt; commit(&mut disk, &geometry, 0, 7, 9));
    assert!(rt; finds(scan(rt.alloc(), &mut disk, &geometry, 7), 1, 1));
    assert!(rt; put_gate(&mut disk, &geometry, 2, 7));
    assert!(rt; finds(scan(rt.alloc(), &mut disk, &geometry, 7), 1, 3));
    assert!(rt; put_gate(&mut disk, &geometry, 3, 255));
    assert!(rt; finds(scan(rt.alloc(), &mut disk, &geometry, 5), 0, 4));
    Ok(())
}

/// Whether a scan is refused since a read failed.
fn is_read_fault(found: Result<Scan<2>, Refusal>) -> bool {
    match found {
        Ok(_) => false,
        Err(why) => why == Refusal::ReadFault,
    }
}

/// A file with three batches, of which that of one slot is damaged.
fn damaged(alloc: Global, geometry: &Geometry, slot: u32) -> Result<Memory, AllocError>
    requires slots { geometry.now.shape.slots ≡ 4 }
    requires few { slot < 4 }
    ensures size { IfOk result (λ m. extent_of m ≡ file_pages geometry.now.shape * 4096) }
{
    let mut disk = closed(alloc, geometry)?;
    let _ = commit(&mut disk, geometry, 0, 7, 9);
    let _ = commit(&mut disk, geometry, 1, 7, 14);
    let _ = commit(&mut disk, geometry, 2, 7, 19);
    let at = geometry.slot_page(Half::Second, slot) as u64 * 4096;
    let _ = disk.write(at + 5, &[17]);
    Ok(disk)
}

#[test]
fn the_first_fault_is_told(rt: HostRuntime) -> Result<(), Fail> {
    let geometry = small().ok_or("the shape is lawful")?;
    let mut disk = damaged(rt.alloc(), &geometry, 2)?;
    disk.fail(3)?;
    assert!(rt; is_read_fault(scan(rt.alloc(), &mut disk, &geometry, 7)));
    assert!(rt; is_damaged(scan(rt.alloc(), &mut disk, &geometry, 7), 30));
    let mut disk = damaged(rt.alloc(), &geometry, 0)?;
    disk.fail(3)?;
    assert!(rt; is_damaged(scan(rt.alloc(), &mut disk, &geometry, 7), 28));
    Ok(())
}

#[test]
fn batches_are_joined_and_taken_apart(rt: HostRuntime) -> Result<(), Fail> {
    let first = of_each_kind(7, 9).ok_or("the data is short")?;
    let second = of_each_kind(5, 14).ok_or("the data is short")?;
    let mut batches = Batches::of(vec![in rt.alloc(); first]?);
    batches.append(Batches::of(vec![in rt.alloc(); second]?))?;
    let list = batches.into_list();
    assert!(rt;
        matches!(list.as_slice(), [a, b] if is_of_each_kind(a, 7, 9) && is_of_each_kind(b, 5, 14))
    );
    Ok(())
}
