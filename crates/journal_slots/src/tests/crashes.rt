//! Runs that are cut off at each call of the disk, and what a scan finds then.
ghost use Rattle.std.specs.Prelude.{◌≡◌, ◌≤◌, ◌*◌, IsTrue, IfOk};
ghost use Rattle.grid_types.specs.Shapes.{file_pages};
ghost use Rattle.disk_memory.specs.Memories.{extent_of};

use super::*;
use disk_memory::{Fused, Keep};
use std::test::*;

/// What a run that was cut off answered, and how many batches of session 7 a scan finds then, where each is the one that
/// was written and no page is damaged.
#[derive(Clone, Copy)]
struct Outcome {
    answered: bool,
    found: Option<usize>,
}

/// Whether each batch is the one that was written.
fn are_whole(batches: &[Batch<2>]) -> bool {
    for batch in batches {
        if !is_of_each_kind(batch, 7, 9) {
            return false;
        }
    }
    true
}

fn found(alloc: Global, disk: &mut Memory, geometry: &Geometry) -> Option<usize>
    requires size { file_pages geometry.now.shape * 4096 ≤ extent_of disk.old }
{
    match scan(alloc, disk, geometry, 7) {
        Ok(scan) => {
            if are_whole(scan.batches.list()) {
                Some(scan.batches.list().len())
            } else {
                None
            }
        }
        Err(_) => None,
    }
}

/// A commit that is cut off after so many calls.
fn committed(
    alloc: Global,
    geometry: &Geometry,
    calls: u64,
    keep: Keep,
) -> Result<Outcome, AllocError>
    requires slots { geometry.now.shape.slots ≡ 4 }
{
    let mut disk = Fused::new(closed(alloc, geometry)?, calls);
    let answered = commit(&mut disk, geometry, 1, 7, 9);
    let mut image = disk.image(keep)?;
    let found = found(alloc, &mut image, geometry);
    Ok(Outcome { answered, found })
}

/// A clearing of two batches that is cut off after so many calls.
fn cleared(
    alloc: Global,
    geometry: &Geometry,
    calls: u64,
    keep: Keep,
) -> Result<Outcome, AllocError>
    requires slots { geometry.now.shape.slots ≡ 4 }
{
    let mut disk = closed(alloc, geometry)?;
    let _ = commit(&mut disk, geometry, 0, 7, 9);
    let _ = commit(&mut disk, geometry, 1, 7, 9);
    let mut disk = Fused::new(disk, calls);
    let answered = clear_half(&mut disk, geometry, Half::Second, 2).is_ok();
    let mut image = disk.image(keep)?;
    let found = found(alloc, &mut image, geometry);
    Ok(Outcome { answered, found })
}

/// How many batches are found behind so many calls of a commit: the page and its sync, the gate and its sync.
fn left_by_committing(calls: u64, keep: Keep) -> usize {
    match calls {
        0..=2 => 0,
        3 => usize::from(keep == Keep::All),
        _ => 1,
    }
}

/// How many of two batches are found behind so many calls of a clearing: the gates and their sync.
fn left_by_clearing(calls: u64, keep: Keep) -> usize {
    match calls {
        0 => 2,
        1 => if keep == Keep::None { 2 } else { 0 },
        _ => 0,
    }
}

#[test]
fn a_crash_leaves_whole_batches(rt: HostRuntime) -> Result<(), Fail> {
    let geometry = small().ok_or("the shape is lawful")?;
    for calls in 0..6 {
        for keep in [Keep::All, Keep::None, Keep::Changed] {
            let run = committed(rt.alloc(), &geometry, calls, keep)?;
            assert_eq!(rt; run.answered, calls >= 4);
            assert_eq!(rt; run.found, Some(left_by_committing(calls, keep)));
            let run = cleared(rt.alloc(), &geometry, calls, keep)?;
            assert_eq!(rt; run.answered, calls >= 2);
            assert_eq!(rt; run.found, Some(left_by_clearing(calls, keep)));
        }
    }
    Ok(())
}

/// A commit on a slot whose gate reads 7, cut off after so many calls, where other bytes stand in place of those that are
/// not on the disk.
fn torn(alloc: Global, geometry: &Geometry, calls: u64) -> Result<Memory, AllocError>
    requires slots { geometry.now.shape.slots ≡ 4 }
    ensures size { IfOk result (λ m. file_pages geometry.now.shape * 4096 ≤ extent_of m) }
{
    let mut disk = closed(alloc, geometry)?;
    let _ = put_gate(&mut disk, geometry, 1, 7);
    let _ = disk.sync();
    let mut disk = Fused::new(disk, calls);
    let _ = commit(&mut disk, geometry, 1, 7, 9);
    disk.image(Keep::Changed)
}

#[test]
fn a_torn_slot_under_a_gate_of_7_counts_nothing(rt: HostRuntime) -> Result<(), Fail> {
    let geometry = small().ok_or("the shape is lawful")?;
    for (calls, batches) in [(0, 0), (1, 0), (2, 0), (4, 1)] {
        let mut image = torn(rt.alloc(), &geometry, calls)?;
        let found = scan(rt.alloc(), &mut image, &geometry, 7);
        assert!(rt; finds(found, batches, 2));
    }
    let mut image = torn(rt.alloc(), &geometry, 1)?;
    assert!(rt; put_gate(&mut image, &geometry, 1, 1));
    assert!(rt; is_damaged(scan(rt.alloc(), &mut image, &geometry, 7), 29));
    Ok(())
}
