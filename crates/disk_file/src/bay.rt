//! A bay over the file system.
ghost use Rattle.std.specs.Prelude.{◌≡◌, ◌≢◌, ◌*◌, ◌≤◌, false, IfOk};
ghost use Rattle.grid_types.specs.declared.sizes.TheConstants.{PAGE_BYTES};
ghost use Rattle.disk_trait.specs.Bay.{Absent};
ghost use Rattle.disk_trait.specs.Causes.{Rose};

use crate::FileDisk;
use disk_trait::{Bay, BayFailed, Disk};
use grid_types::PAGE_BYTES;
use std::fs::{File, Files, OpenOptions};
use std::{fs, io};

/// Files by their paths. It does not tell its names, so it counts each failure, also that a name is there or absent.
#[derive(Drop)]
pub struct FileBay<R: Files<File = File> + Drop> {
    files: R,
    faults: u64,
}

impl<R: Files<File = File> + Drop> FileBay<R> {
    /// A bay that has not failed.
    pub fn new(files: R) -> FileBay<R>
        ensures { ⟦<FileBay<R> as Bay>⟧.fault_count result ≡ 0 }
    {
        FileBay { files, faults: 0 }
    }

    /// Counts a failure of the bay.
    fn count_fault(&mut self)
        ensures rose { Rose self.old.faults self.new.faults }
        ensures later { self.old.faults ≤ self.new.faults }
    {
        self.faults = self.faults.saturating_add(1);
    }

    /// Counts a disk that comes back with faults of its own.
    fn count_faulty(&mut self, disk: &FileDisk)
        ensures read { disk.now.read_faults ≢ 0 → Rose self.old.faults self.new.faults }
        ensures write { disk.now.write_faults ≢ 0 → Rose self.old.faults self.new.faults }
        ensures later { self.old.faults ≤ self.new.faults }
    {
        if disk.read_faults() != 0 {
            self.count_fault();
            return;
        }
        if disk.write_faults() != 0 {
            self.count_fault();
        }
    }
}

/// The folder of a path: what stands before its last slash.
fn folder_of(name: &str) -> &str {
    match name.rfind('/') {
        Some(0) => "/",
        Some(at) => &name[..at],
        None => ".",
    }
}

/// Fills a file that was made with zeros, and puts its name on the disk, so that it is there after a crash.
fn settle<R: Files<File = File>>(
    files: &R,
    name: &str,
    disk: &FileDisk,
    pages: u64,
) -> io::Result<()> {
    disk.fill(pages)?;
    File::open(files, folder_of(name))?.sync_all()
}

/// Makes the file anew; a file that is there is left as it is. What could not be filled is taken away again.
fn create_file<R: Files<File = File>>(files: &R, name: &str, pages: u64) -> io::Result<FileDisk>
    ensures size { IfOk result (λ d. d.size ≡ pages * PAGE_BYTES) }
    ensures unfailed { IfOk result (λ d. (d.read_faults ≡ 0) × (d.write_faults ≡ 0)) }
{
    let Some(size) = pages.checked_mul(PAGE_BYTES as u64) else {
        return Err(io::ErrorKind::InvalidInput.into());
    };
    let disk = FileDisk::new(File::create_new(files, name)?, size);
    match settle(files, name, &disk, pages) {
        Ok(()) => Ok(disk),
        Err(error) => {
            let _ = fs::remove_file(files, name);
            Err(error)
        }
    }
}

/// Opens a file to read and write it. Its size is that of the moment.
fn open_file<R: Files<File = File>>(files: &R, name: &str) -> io::Result<FileDisk>
    ensures { IfOk result (λ d. (d.read_faults ≡ 0) × (d.write_faults ≡ 0)) }
{
    let file = OpenOptions::new().read(true).write(true).open(files, name)?;
    let size = file.metadata()?.len();
    Ok(FileDisk::new(file, size))
}

impl<R: Files<File = File> + Drop> Bay for FileBay<R> {
    type Disk = FileDisk;

    ghost tells = { λ b. false };

    ghost place = { λ b name. Absent };

    ghost fault_count = { λ b. b.faults };

    fn create(&mut self, name: &str, pages: u64) -> Result<FileDisk, BayFailed> {
        match create_file(&self.files, name, pages) {
            Ok(disk) => Ok(disk),
            Err(_) => {
                self.count_fault();
                Err(BayFailed)
            }
        }
    }

    fn open(&mut self, name: &str) -> Result<FileDisk, BayFailed> {
        match open_file(&self.files, name) {
            Ok(disk) => Ok(disk),
            Err(_) => {
                self.count_fault();
                Err(BayFailed)
            }
        }
    }

    fn close(&mut self, _name: &str, disk: FileDisk) -> Result<(), BayFailed> {
        self.count_faulty(&disk);
        Ok(())
    }

    fn faults(&self) -> u64 {
        self.faults
    }
}
