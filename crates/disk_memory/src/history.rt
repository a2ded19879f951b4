//! What a disk in memory has held since it was made.
ghost use Rattle.std.specs.Prelude.{◌≡◌, ◌⊎◌, ◌+◌, ◌-◌, ◌*◌, ◌≤◌, ℕ, [], length, OnOk, OnErr, IfOk, vec_len, vec_capacity};
ghost use Rattle.disk_trait.specs.Moments.{AgreesOutside};
ghost use Rattle.disk_memory.specs.Past.{Written, Failed, Synced, contents_now, with_change, with_recorded, Leaves};
ghost use Rattle.disk_memory.specs.Events.{change_of};
ghost use Rattle.disk_memory.specs.OnDisk.{LiesInside, on_disk, IsInside, IsOther};

use crate::replay::{change_unsynced, replay, synced_count};
use std::alloc::{AllocError, Global};
use std::marker::Model;

/// What has happened to the bytes of a disk.
#[derive(Drop)]
pub enum Event {
    /// Bytes were written from an offset on.
    Write { at: usize, bytes: Vec<u8> },
    /// A write of that many bytes failed.
    FailedWrite { at: usize, size: usize },
    /// All that was written is on the disk.
    Sync,
}

/// The bytes that a disk began with, and what has happened to them.
///
/// Where some of them are not on the disk there is room for one event more, so that a sync needs no memory. Room is also
/// kept for failed writes, each with a sync behind it.
#[derive(Drop)]
pub struct DiskHistory {
    alloc: Global,
    first: Vec<u8>,
    events: Vec<Event>,
    is_clean: bool,
    spare: usize,
}

impl Model for DiskHistory {
    ghost use Rattle.disk_memory.specs.Past.{Recorded};

    ghost Value = { Recorded };

    ghost use Rattle.disk_memory.specs.Histories.{recorded_of, IsDiskHistory};

    ghost view = { recorded_of };

    ghost invariant = { IsDiskHistory };
}

/// Makes room for so many failed writes and for one event more, each with a sync behind it, and for a sync before them.
fn make_room(events: &mut Vec<Event>, spare: usize) -> Result<(), AllocError>
    ensures items { events.new.items ≡ events.old.items }
    ensures length { vec_len events.new ≡ vec_len events.old }
    ensures grown { vec_capacity events.old ≤ vec_capacity events.new }
    ensures room { OnOk result (vec_len events.new + 2 * spare + 3 ≤ vec_capacity events.new) }
{
    let Some(writes) = spare.checked_mul(2) else {
        return Err(AllocError);
    };
    let Some(room) = writes.checked_add(3) else {
        return Err(AllocError);
    };
    events.reserve(room)
}

impl DiskHistory {
    /// The history that begins with these bytes, all of them on the disk.
    pub fn new(alloc: Global, bytes: &[u8]) -> Result<DiskHistory, AllocError>
        ensures { IfOk result
            (λ h. h ≡ record { past = record { first = bytes.now; changes = [] }; room = 0 }) }
    {
        let first = bytes.to_vec(alloc)?;
        Ok(DiskHistory {
            alloc,
            first,
            events: Vec::new(alloc),
            is_clean: true,
            spare: 0,
        })
    }

    /// Records that bytes are written from an offset on. Its only error is want of memory.
    pub fn record_write(&mut self, at: usize, bytes: &[u8]) -> Result<(), AllocError>
        requires { at + length bytes.now ≤ length (contents_now self.old.past).bytes }
        ensures recorded { OnOk result (self.new ≡ with_recorded self.old (Written at bytes.now)) }
        ensures refused { OnErr result (self.new ≡ self.old) }
    {
        let copy = bytes.to_vec(self.alloc)?;
        self.add(Event::Write { at, bytes: copy })
    }

    /// Keeps room for one failed write more. Its only error is want of memory.
    pub fn keep_room(&mut self) -> Result<(), AllocError>
        ensures kept { OnOk result
            (self.new ≡ record { past = self.old.past; room = self.old.room + 1 }) }
        ensures refused { OnErr result (self.new ≡ self.old) }
    {
        make_room(&mut self.events, self.spare)?;
        self.spare += 1;
        Ok(())
    }

    /// Records that a write of that many bytes failed, in the room that is kept.
    pub fn record_failed_write(&mut self, at: usize, size: usize)
        requires inside { at + size ≤ length (contents_now self.old.past).bytes }
        requires room { 1 ≤ self.old.room }
        ensures { self.new ≡ record {
          past = with_change self.old.past (Failed at size);
          room = self.old.room - 1;
        } }
    {
        self.spare -= 1;
        self.events.push_reserved(Event::FailedWrite { at, size });
        self.is_clean = false;
    }

    /// Adds an event, where there is memory for one more behind it. Its only error is want of memory.
    fn add(&mut self, event: Event) -> Result<(), AllocError>
        requires { LiesInside (length (contents_now self.old.past).bytes) (change_of event) }
        ensures added { OnOk result (self.new ≡ with_recorded self.old (change_of event)) }
        ensures refused { OnErr result (self.new ≡ self.old) }
    {
        make_room(&mut self.events, self.spare)?;
        self.events.push(event)?;
        self.is_clean = false;
        Ok(())
    }

    /// Records a sync, unless all bytes are on the disk already.
    pub fn record_sync(&mut self)
        ensures clean { (contents_now self.new.past).dirty ≡ [] }
        ensures recorded { (self.new ≡ self.old) ⊎ (self.new ≡ with_recorded self.old Synced) }
    {
        if self.is_clean {
            return;
        }
        let Ok(()) = self.events.push(Event::Sync) else {
            unreachable!();
        };
        self.is_clean = true;
    }

    /// What was on the disk at the last sync, or at first where there was none.
    pub fn on_disk(&self) -> Result<Vec<u8>, AllocError>
        ensures bytes { IfOk result (λ v. v.items ≡ on_disk self.now.past) }
        ensures left { IfOk result (λ v. Leaves (contents_now self.now.past) v.items) }
    {
        let mut bytes = self.first.to_vec(self.alloc)?;
        replay(&self.events[..synced_count(&self.events)], &mut bytes);
        Ok(bytes)
    }

    /// What reads give, but with another byte wherever one is not on the disk yet.
    pub fn changed(&self, bytes: &[u8]) -> Result<Vec<u8>, AllocError>
        requires { bytes.now ≡ (contents_now self.now.past).bytes }
        ensures outside { IfOk result
            (λ v. AgreesOutside (contents_now self.now.past).dirty bytes.now v.items) }
        ensures inside { IfOk result (λ v. (i : ℕ)
            → IsInside (contents_now self.now.past).dirty i
            → IsOther bytes.now (on_disk self.now.past) v.items i) }
    {
        let synced = self.on_disk()?;
        let mut image = bytes.to_vec(self.alloc)?;
        change_unsynced(&self.events, bytes, &synced, &mut image);
        Ok(image)
    }
}
