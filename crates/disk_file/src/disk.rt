//! A disk over an open file.
ghost use Rattle.std.specs.Prelude.{◌≡◌, [], ⊤, false};
ghost use Rattle.std.proofs.lemmas.Bool.{false≢true};

use disk_trait::{Disk, DiskFailed, Steps};
use grid_types::PAGE_BYTES;
use std::fs::File;
use std::io;
use std::os::unix::fs::FileExt;
use std::sync::ledger::Ledger;

/// A file as a disk. It reads and writes at offsets alone, so no position is shared or kept.
#[derive(Drop)]
pub struct FileDisk {
    file: File,
    size: u64,
    read_faults: u64,
    write_faults: u64,
}

impl FileDisk {
    /// The disk of a file that has that many bytes.
    pub(crate) fn new(file: File, size: u64) -> FileDisk
        ensures { (result.size ≡ size) × (result.read_faults ≡ 0) × (result.write_faults ≡ 0) }
    {
        FileDisk {
            file,
            size,
            read_faults: 0,
            write_faults: 0,
        }
    }

    /// Writes the zeros out, page by page, so that the file has no holes. Whoever makes something of them syncs that.
    pub(crate) fn fill(&self, pages: u64) -> io::Result<()> {
        let zeros = [0; PAGE_BYTES];
        for page in 0..pages {
            self.file
                .write_all_at(&zeros, page.wrapping_mul(PAGE_BYTES as u64))?;
        }
        Ok(())
    }
}

impl Disk for FileDisk {
    ghost honest = { λ d. false };

    ghost extent = { λ d. d.size };

    ghost seen = { λ d. [] };

    ghost may_leave = { λ d c. ⊤ };

    ghost moment = { λ d. 0 };

    ghost left_since = { λ d t c. ⊤ };

    ghost read_count = { λ d. d.read_faults };

    ghost write_count = { λ d. d.write_faults };

    ghost whole = { λ d h. absurd (false≢true h) };

    ghost seen_now = { λ d h. absurd (false≢true h) };

    ghost counts_now = { λ d t c h le left. tt };

    ghost only_now = { λ d c h left. tt };

    fn size(&self) -> u64 {
        self.size
    }

    fn read<L: Ledger>(
        &mut self,
        page: u64,
        out: &mut [u8; PAGE_BYTES],
        steps: &mut Steps<L>,
    ) -> Result<(), DiskFailed> {
        steps.tick();
        match self.file.read_exact_at(out, page * PAGE_BYTES as u64) {
            Ok(()) => Ok(()),
            Err(_) => {
                self.read_faults = self.read_faults.saturating_add(1);
                Err(DiskFailed)
            }
        }
    }

    fn write(&mut self, at: u64, bytes: &[u8]) -> Result<(), DiskFailed> {
        match self.file.write_all_at(bytes, at) {
            Ok(()) => Ok(()),
            Err(_) => {
                self.write_faults = self.write_faults.saturating_add(1);
                Err(DiskFailed)
            }
        }
    }

    fn sync(&mut self) -> Result<(), DiskFailed> {
        match self.file.sync_data() {
            Ok(()) => Ok(()),
            Err(_) => {
                self.write_faults = self.write_faults.saturating_add(1);
                Err(DiskFailed)
            }
        }
    }

    fn read_faults(&self) -> u64 {
        self.read_faults
    }

    fn write_faults(&self) -> u64 {
        self.write_faults
    }
}
