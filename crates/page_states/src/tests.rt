ghost use Rattle.std.specs.Prelude.{◌≡◌, ◌<◌, length, IfOk};
ghost use Rattle.grid_types.specs.declared.sizes.TheConstants.{MOST_PAGES};
ghost use Rattle.page_states.specs.States.{number_of};

use super::*;
use grid_types::{MOST_PAGES, Owner};
use std::alloc::{AllocError, Global};
use std::test::*;

/// As many pages as a file can have.
fn most_pages(alloc: Global) -> Result<PageStates, AllocError>
    ensures { IfOk result (λ s. length s ≡ MOST_PAGES) }
{
    PageStates::new(alloc, MOST_PAGES as u32)
}

/// The owner's page is renewed at a place; answers the page that it has from there on.
fn renew(states: &mut PageStates, owner: Owner, at: u64) -> Option<u32>
    requires { number_of owner < length states.old }
    ensures { length states.new ≡ length states.old }
{
    let mut pages = [0; 1];
    if states.free() == 0 {
        return None;
    }
    states.claim(5, &mut pages);
    states.publish(pages[0], owner, at);
    Some(pages[0])
}

/// A bucket is written at places 1, 2 and 3, and a part at place 1; the places are swept as a root at 1 and a pin at 2
/// come and go.
fn lives(states: &mut PageStates) -> [Option<u32>; 8]
    requires { length states.old ≡ MOST_PAGES }
{
    let bucket = Owner::Bucket(65_535);
    let part = Owner::Part(65_535);
    let first = renew(states, bucket, 1);
    let other = renew(states, part, 1);
    let second = renew(states, bucket, 2);
    let third = renew(states, bucket, 3);
    let _ = (first, other, second, third);
    states.sweep(&[1, 2]);
    let at_root = states.page_at(bucket, 1);
    let at_pin = states.page_at(bucket, 2);
    let now = states.page_at(bucket, 3);
    states.sweep(&[2]);
    let swept = states.page_at(bucket, 1);
    let kept = states.page_at(bucket, 2);
    states.vanish(part, 4);
    let vanished = states.page_at(part, 4);
    let before = states.page_at(part, 3);
    let again = renew(states, part, 5);
    [at_root, at_pin, now, swept, kept, vanished, before, again]
}

#[test]
fn pages_live_as_long_as_their_places(rt: HostRuntime) {
    match most_pages(rt.alloc()) {
        Ok(mut states) => {
            let found = lives(&mut states);
            let want = [
                Some(0),
                Some(2),
                Some(3),
                None,
                Some(2),
                None,
                Some(1),
                Some(0),
            ];
            assert_eq!(rt; found, want);
            assert_eq!(rt; states.free(), 65_532);
        }
        Err(_) => assert!(rt; false),
    }
}

#[test]
fn claimed_pages_come_back(rt: HostRuntime) {
    match most_pages(rt.alloc()) {
        Ok(mut states) => {
            let mut pages = [0; 3];
            let room = states.free() >= 3;
            if room {
                states.claim(7, &mut pages);
            }
            assert_eq!(rt; pages, [0, 1, 2]);
            assert!(rt; states.claimed(7) && !states.claimed(5));
            assert_eq!(rt; states.free(), 65_533);
            states.give_back(7);
            assert!(rt; !states.claimed(7));
            assert_eq!(rt; states.free(), 65_536);
        }
        Err(_) => assert!(rt; false),
    }
}

#[test]
fn a_root_is_told_its_pages(rt: HostRuntime) {
    match most_pages(rt.alloc()) {
        Ok(mut states) => {
            let mut buckets = [9; 3];
            let mut parts = [9; 2];
            let _ = renew(&mut states, Owner::Bucket(1), 1);
            let _ = renew(&mut states, Owner::Part(0), 1);
            let _ = renew(&mut states, Owner::Bucket(1), 2);
            states.bucket_pages(u32::MAX, &mut buckets);
            states.part_pages(u32::MAX, &mut parts);
            assert_eq!(rt; buckets, [u32::MAX, 2, u32::MAX]);
            assert_eq!(rt; parts, [1, u32::MAX]);
            assert!(rt; states.would_free(&[2], &[1]) && !states.would_free(&[1], &[1]));
        }
        Err(_) => assert!(rt; false),
    }
}
