//! Pages in memory.
ghost use Rattle.std.specs.Prelude.{◌≡◌, ◌≤◌, ⊤, None, length, map};

use crate::ChangePages;
use disk_trait::{DiskFailed, Steps};
use grid_types::{Owner, PAGE_BYTES};
use std::sync::ledger::Ledger;

/// A page that was written for an owner.
#[derive(Drop)]
pub struct WrittenPage {
    pub owner: Owner,
    pub page: [u8; PAGE_BYTES],
}

/// The pages of the old parts, and those that were written. After so many calls each fails.
#[derive(Drop)]
pub struct ListPages {
    pub before: Vec<[u8; PAGE_BYTES]>,
    pub written: Vec<WrittenPage>,
    pub room: u32,
    pub reads: u32,
    pub calls_left: u32,
    pub read_faults: u64,
    pub write_faults: u64,
}

impl ListPages {
    /// Whether the next call fails; it counts it.
    fn fails(&mut self) -> bool {
        if self.calls_left == 0 {
            return true;
        }
        self.calls_left -= 1;
        false
    }
}

impl ChangePages for ListPages {
    ghost pages = { λ s. None };

    ghost written = { λ s. map (λ w. (w.owner, w.page)) s.written.items };

    ghost room = { λ s. s.room };

    ghost parts = { λ s. length s.before.items };

    ghost lies_at = { λ s part page. page ≡ part };

    ghost read_count = { λ s. s.read_faults };

    ghost write_count = { λ s. s.write_faults };

    ghost stays = { λ a b. ⊤ };

    fn read_part<L: Ledger>(
        &mut self,
        part: u32,
        page: &mut [u8; PAGE_BYTES],
        steps: &mut Steps<L>,
    ) -> Result<u32, DiskFailed> {
        if self.calls_left == 0 {
            self.read_faults = self.read_faults.saturating_add(1);
            return Err(DiskFailed);
        }
        self.calls_left -= 1;
        self.reads = self.reads.wrapping_add(1);
        steps.tick();
        *page = self.before[part as usize];
        Ok(part)
    }

    fn write_new(&mut self, owner: Owner, page: &[u8; PAGE_BYTES]) -> Result<(), DiskFailed> {
        let is_written = self.calls_left != 0
            && self
                .written
                .push(WrittenPage { owner, page: *page })
                .is_ok();
        if !is_written {
            self.write_faults = self.write_faults.saturating_add(1);
            return Err(DiskFailed);
        }
        self.calls_left -= 1;
        self.room -= 1;
        Ok(())
    }

    fn read_faults(&self) -> u64 {
        self.read_faults
    }

    fn write_faults(&self) -> u64 {
        self.write_faults
    }

    ghost stays_self = { λ s. tt };

    ghost stays_on = { λ a b c p q. tt };
}
