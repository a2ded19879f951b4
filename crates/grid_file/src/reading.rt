//! The pages of owners at the front, read where they are, and a file as a place of which ways over pages read.
ghost use Rattle.std.specs.Prelude.{◌≡◌, ◌≤◌, ◌*◌, ◌↔◌, ℕ, None, IsTrue, IsSome, IfOk};
ghost use Rattle.std.specs.Option.{option_map};
ghost use Rattle.grid_types.specs.declared.sizes.TheConstants.{PAGE_BYTES};
ghost use Rattle.grid_types.specs.Shapes.{file_pages};
ghost use Rattle.disk_trait.specs.Calls.{OnlyReads};
ghost use Rattle.disk_trait.specs.Causes.{HasCause};
ghost use Rattle.query_paths.specs.Pinned.{MakesAStepIfThere};
ghost use Rattle.file_images.specs.Kept.{Kept};
ghost use Rattle.file_images.specs.Meets.{Meets};
ghost use Rattle.file_sections.specs.Sections.{StaysShown};
ghost use Rattle.file_books.specs.Books.{has_page};
ghost use Rattle.grid_file.specs.Pages.{IsFoundIn};

use crate::file::GridFile;
use disk_trait::{Disk, DiskFailed, Steps};
use file_state::FileState;
use grid_cells::Dims;
use grid_types::{CellBox, Key, Owner, PAGE_BYTES, Query, Region};
use query_paths::Pinned;
use std::sync::ledger::Ledger;

/// Reads the page of an owner at the front, and answers which page of the file it is, or none where the owner has none.
pub(crate) fn read_owner<const K: usize, D: Disk, L: Ledger>(
    disk: &mut D,
    state: &FileState<K>,
    owner: Owner,
    page: &mut [u8; PAGE_BYTES],
    steps: &mut Steps<L>,
) -> Result<Option<u32>, DiskFailed>
    requires { file_pages state.now.shape * PAGE_BYTES ≤ D.extent disk.old }
    ensures there { IfOk result (λ at. IsSome at ↔ IsTrue (has_page state.now owner)) }
    ensures none { IfOk result (λ at. at ≡ None → page.new ≡ page.old) }
    ensures ticks { MakesAStepIfThere steps.old steps.new result }
    ensures found { IfOk result (IsFoundIn D.Disk state.now owner disk.old page.new) }
    ensures same { OnlyReads D.Disk disk.old disk.new }
    ensures kept { (k : Kept K) → Meets D.Disk k disk.old → Meets D.Disk k disk.new }
    ensures moments { (k : Kept K)
        → Meets D.Disk k disk.old
        → StaysShown D.Disk k disk.old disk.new }
    ensures cause { HasCause (D.read_count disk.old) (D.read_count disk.new) result }
{
    let Some(data) = state.page_of(owner) else {
        return Ok(None);
    };
    let at = state.geometry().data_page(data);
    let Ok(()) = file_sections::read_page(disk, u64::from(at), page, steps) else {
        return Err(DiskFailed);
    };
    Ok(Some(at))
}

impl<const K: usize, D: Disk> Pinned<K> for GridFile<K, D> {
    ghost use Rattle.file_books.specs.Books.{numbers_now};
    ghost use Rattle.grid_file.specs.Pages.{pages_given, file_page};
    ghost use Rattle.grid_file.specs.Keeping.{ReadsFile};
    ghost use Rattle.grid_file.specs.CallLaws.{reads_none, reads_on};

    ghost shape = { λ f. f.books.shape };

    ghost scales = { λ f. f.books.scales };

    ghost numbers = { λ f. numbers_now f.books };

    ghost pages = { λ f. pages_given D.Disk f };

    ghost file_page = { λ f. file_page f.books };

    ghost faults = { λ f. D.read_count f.disk };

    ghost stays = { λ f h. ReadsFile K D.Disk f h };

    fn capacity(&self) -> u16 {
        self.state.geometry().shape.capacity
    }

    fn dims(&self) -> Dims<K> {
        Dims {
            intervals: self.state.scales().dims(),
        }
    }

    fn cell_of(&self, key: &Key<K>) -> [u32; K] {
        self.state.scales().cell_of(key)
    }

    fn cells_of(&self, query: &Query<K>) -> CellBox<K> {
        self.state.scales().cells_meeting(query)
    }

    fn keys_of(&self, cell: &[u32; K]) -> Region<K> {
        self.state.scales().keys_of(cell)
    }

    fn read_part<L: Ledger>(
        &mut self,
        part: u32,
        page: &mut [u8; PAGE_BYTES],
        steps: &mut Steps<L>,
    ) -> Result<u32, DiskFailed> {
        match read_owner(&mut *self.disk, &self.state, Owner::Part(part), page, steps)? {
            Some(at) => Ok(at),
            None => unreachable!(),
        }
    }

    fn read_bucket<L: Ledger>(
        &mut self,
        number: u32,
        page: &mut [u8; PAGE_BYTES],
        steps: &mut Steps<L>,
    ) -> Result<Option<u32>, DiskFailed> {
        read_owner(
            &mut *self.disk,
            &self.state,
            Owner::Bucket(number),
            page,
            steps,
        )
    }

    fn read_faults(&self) -> u64 {
        self.disk.read_faults()
    }

    ghost stays_self = { λ f. reads_none f (λ c h left. D.only_now f.disk c h left) };

    ghost stays_on = { λ a b c p q. reads_on p q };
}
