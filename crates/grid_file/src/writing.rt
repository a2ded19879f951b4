//! A file as the pages of a change that is written.
use crate::file::GridFile;
use crate::reading::read_owner;
use crate::written::with_one;
use disk_trait::{Disk, DiskFailed, Steps};
use file_sections::write_data_page;
use grid_types::{Owner, PAGE_BYTES};
use shadow_directory::ChangePages;
use std::marker::Brand;
use std::sync::ledger::Ledger;

impl<const K: usize, D: Disk> ChangePages for GridFile<K, D> {
    ghost use Rattle.std.specs.Prelude.{◌≡◌, ◌-◌, length};
    ghost use Rattle.grid_types.specs.declared.owner.Owner.TheVariants.{Part};
    ghost use Rattle.grid_model.specs.Cells.{parts};
    ghost use Rattle.grid_file.specs.Pages.{pages_given, file_page};
    ghost use Rattle.grid_file.specs.Keeping.{KeepsFile};
    ghost use Rattle.grid_file.specs.CallLaws.{keeps_none, keeps_on};

    ghost pages = { λ f. pages_given D.Disk f };

    ghost written = { λ f. f.written };

    ghost room = { λ f. length f.claimed - length f.written };

    ghost parts = { λ f. parts f.books.scales };

    ghost lies_at = { λ f part page. page ≡ file_page f.books (Part part) };

    ghost read_count = { λ f. D.read_count f.disk };

    ghost write_count = { λ f. D.write_count f.disk };

    ghost stays = { λ f h. KeepsFile K D.Disk f h };

    fn read_part<L: Ledger>(
        &mut self,
        part: u32,
        page: &mut [u8; PAGE_BYTES],
        steps: &mut Steps<L>,
    ) -> Result<u32, DiskFailed> {
        match read_owner(&mut *self.disk, &self.state, Owner::Part(part), page, steps)? {
            Some(at) => Ok(at),
            None => unreachable!(),
        }
    }

    fn write_new(&mut self, owner: Owner, page: &[u8; PAGE_BYTES]) -> Result<(), DiskFailed> {
        let data = self.claimed.page(self.done);
        write_data_page(&mut *self.disk, &self.state.geometry(), data, page)?;
        self.written = with_one::<Brand>(&self.written, owner, page);
        self.done += 1;
        Ok(())
    }

    fn read_faults(&self) -> u64 {
        self.disk.read_faults()
    }

    fn write_faults(&self) -> u64 {
        self.disk.write_faults()
    }

    ghost stays_self = { λ f. keeps_none f (λ c h left. D.only_now f.disk c h left) };

    ghost stays_on = { λ a b c p q. keeps_on p q };
}
