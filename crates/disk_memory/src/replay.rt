//! Walks over what has happened to a disk, to find what is on it for good.
ghost use Rattle.std.specs.Prelude.{◌≡◌, ◌≢◌, ◌≤◌, ◌<◌, ◌+◌, ◌⊎◌, ℕ, List, All, length, map, take, slice_index};
ghost use Rattle.disk_trait.specs.Disk.{Holds};
ghost use Rattle.disk_trait.specs.Moments.{AgreesOutside};
ghost use Rattle.disk_memory.specs.Past.{contents_after};
ghost use Rattle.disk_memory.specs.Events.{change_of};
ghost use Rattle.disk_memory.specs.OnDisk.{LiesInside, up_to_sync, IsInside, IsOther};

use crate::history::Event;

/// Writes bytes over those from an offset on.
pub fn overwrite(all: &mut [u8], at: usize, bytes: &[u8])
    requires { at + length bytes.now ≤ length all.old }
    ensures { Holds all.old at bytes.now all.new }
{
    all[at..at + bytes.len()].copy_from_slice(bytes);
}

/// How many events there are up to the last sync, that one included.
pub fn synced_count(events: &[Event]) -> usize
    ensures inside { result ≤ length events.now }
    ensures synced { map change_of (take result events.now)
        ≡ up_to_sync (map change_of events.now) }
{
    for back in 0..events.len() {
        if let Event::Sync = &events[events.len() - 1 - back] {
            return events.len() - back;
        }
    }
    0
}

/// Makes the writes again.
pub fn replay(events: &[Event], all: &mut [u8])
    requires { All (λ e. LiesInside (length all.old) (change_of e)) events.now }
    ensures { all.new ≡ (contents_after all.old (map change_of events.now)).bytes }
{
    for event in events {
        match event {
            Event::Write { at, bytes } => overwrite(all, *at, bytes),
            Event::FailedWrite { .. } => {}
            Event::Sync => {}
        }
    }
}

/// A byte that is neither of two.
fn other_than(a: u8, b: u8) -> u8
    ensures first { result ≢ a }
    ensures second { result ≢ b }
{
    if a ^ 1 == b { a ^ 2 } else { a ^ 1 }
}

/// Makes each byte of a range another one than those of two images.
fn change(image: &mut [u8], at: usize, size: usize, bytes: &[u8], synced: &[u8])
    requires inside { at + size ≤ length image.old }
    requires bytes { length bytes.now ≡ length image.old }
    requires synced { length synced.now ≡ length image.old }
    ensures length { length image.new ≡ length image.old }
    ensures inside { (i : ℕ) → at ≤ i → i < at + size → IsOther bytes.now synced.now image.new i }
    ensures outside { (i : ℕ)
        → (i < at) ⊎ (at + size ≤ i)
        → slice_index image.new i ≡ slice_index image.old i }
{
    for i in at..at + size {
        image[i] = other_than(bytes[i], synced[i]);
    }
}

/// Makes each byte that is not on the disk another one than reads give, and than is on it.
pub fn change_unsynced(events: &[Event], bytes: &[u8], synced: &[u8], image: &mut [u8])
    requires inside { All (λ e. LiesInside (length image.old) (change_of e)) events.now }
    requires bytes { length bytes.now ≡ length image.old }
    requires synced { length synced.now ≡ length image.old }
    ensures outside { (first : List ℕ)
        → AgreesOutside (contents_after first (map change_of events.now)).dirty
        image.old image.new }
    ensures inside { (first : List ℕ) (i : ℕ)
        → IsInside (contents_after first (map change_of events.now)).dirty i
        → IsOther bytes.now synced.now image.new i }
{
    for back in 0..events.len() {
        match &events[events.len() - 1 - back] {
            Event::Write { at, bytes: written } => change(image, *at, written.len(), bytes, synced),
            Event::FailedWrite { at, size } => change(image, *at, *size, bytes, synced),
            Event::Sync => return,
        }
    }
}
