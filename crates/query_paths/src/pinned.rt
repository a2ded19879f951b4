//! The pages of a file at one place of its history, as those see them who read.
ghost use Rattle.std.specs.Prelude.{◌≡◌, ◌<◌, ◌≤◌, ◌*◌, ◌↔◌, ℕ, List, Option, None, IsTrue, IsSome, IfOk, length};
ghost use Rattle.grid_types.specs.declared.shape.Shape.{Shape};
ghost use Rattle.grid_types.specs.declared.owner.Owner.{Owner};
ghost use Rattle.grid_types.specs.declared.owner.Owner.TheVariants.{Bucket, Part};
ghost use Rattle.grid_types.specs.declared.sizes.TheConstants.{MOST_RECORDS};
ghost use Rattle.grid_types.specs.Keys.{IsKey};
ghost use Rattle.grid_types.specs.Queries.{is_lawful};
ghost use Rattle.grid_types.specs.Regions.{contains, IsRegion};
ghost use Rattle.grid_model.specs.Lists.{is_among};
ghost use Rattle.grid_model.specs.Cells.{dims, cells, cell_of, InCellBox};
ghost use Rattle.grid_model.specs.ScaleLaws.{IsCell};
ghost use Rattle.linear_scales.specs.Queries.{lowest_cell, highest_cell, MeetsQuery};
ghost use Rattle.disk_trait.specs.Causes.{HasCause};
ghost use Rattle.query_paths.specs.Pinned.{StaysPinned, IsRead, IsReadIfThere, MakesSteps, MakesAStepIfThere};

use disk_trait::{DiskFailed, Steps};
use grid_cells::Dims;
use grid_types::{CellBox, Key, PAGE_BYTES, Query, Region};
use std::sync::ledger::Ledger;

/// The pages of a file as one place of its history has them.
///
/// A reading does not judge what it reads: whoever asked for the page knows what it has to be. Its count of failures
/// never falls. A reading fails only where the count rises in it, or stands at its last value.
pub trait Pinned<const K: usize> {
    /// The file's shape.
    ghost shape: { Self → Shape };

    /// The boundaries at the place.
    ghost scales: { Self → List (List ℕ) };

    /// The bucket numbers that have a page at the place.
    ghost numbers: { Self → List ℕ };

    /// What a reading of each owner gives, where that is told.
    ghost pages: { Self → Option (Owner → Option (List ℕ)) };

    /// The page of the file in which each owner's page stands.
    ghost file_page: { Self → Owner → ℕ };

    /// How many readings have failed.
    ghost faults: { Self → ℕ };

    /// What a reading leaves as it was, beside the members above.
    ghost stays: { Self → Self → Type 0 };

    /// How many records a bucket may have.
    fn capacity(&self) -> u16
        ensures value { result ≡ (shape self.now).capacity }
        ensures few { result ≤ MOST_RECORDS };

    /// How many intervals each attribute has.
    fn dims(&self) -> Dims<K>
        ensures value { result.intervals ≡ dims (scales self.now) }
        ensures count { length (scales self.now) ≡ K };

    /// The cell of a key.
    fn cell_of(&self, key: &Key<K>) -> [u32; K]
        ensures value { result ≡ cell_of (scales self.now) key.now.numbers }
        ensures inside { IsCell (dims (scales self.now)) result };

    /// The box of the cells that a query meets.
    fn cells_of(&self, query: &Query<K>) -> CellBox<K>
        requires { IsTrue (is_lawful query.now.sides) }
        ensures lowest { result.lo ≡ lowest_cell (scales self.now) query.now.sides }
        ensures highest { result.hi ≡ highest_cell (scales self.now) query.now.sides }
        ensures meets { (cell : List ℕ)
            → IsCell (dims (scales self.now)) cell
            → MeetsQuery K (scales self.now) query.now.sides cell ↔ InCellBox result cell };

    /// The keys of a cell, as a region.
    fn keys_of(&self, cell: &[u32; K]) -> Region<K>
        requires { IsCell (dims (scales self.now)) cell.now }
        ensures some { IsRegion K result }
        ensures keys { (key : List ℕ)
            → IsKey K key
            → IsTrue (contains result key) ↔ (cell_of (scales self.now) key ≡ cell.now) };

    /// Reads the page of a directory part, and answers which page of the file it is. After a failure `page` holds anything.
    fn read_part<L: Ledger>(
        &mut self,
        part: u32,
        page: &mut [u8; PAGE_BYTES],
        steps: &mut Steps<L>,
    ) -> Result<u32, DiskFailed>
        requires { 1000 * part < cells (scales self.old) }
        ensures ticks { MakesSteps 1 steps.old steps.new result }
        ensures read { IsRead (pages self.old) (file_page self.old) (Part part) page.new result }
        ensures same { StaysPinned shape scales numbers pages file_page self.old self.new }
        ensures stays { stays self.old self.new }
        ensures cause { HasCause (faults self.old) (faults self.new) result };

    /// Reads the page of a bucket, and answers which page of the file it is, or none where no bucket of that number has
    /// one. After a failure `page` holds anything.
    fn read_bucket<L: Ledger>(
        &mut self,
        number: u32,
        page: &mut [u8; PAGE_BYTES],
        steps: &mut Steps<L>,
    ) -> Result<Option<u32>, DiskFailed>
        ensures there { IfOk result (λ o. IsSome o ↔ IsTrue (is_among (numbers self.old) number)) }
        ensures none { IfOk result (λ o. o ≡ None → page.new ≡ page.old) }
        ensures ticks { MakesAStepIfThere steps.old steps.new result }
        ensures read { IsReadIfThere (pages self.old) (file_page self.old) (Bucket number)
            page.new result }
        ensures same { StaysPinned shape scales numbers pages file_page self.old self.new }
        ensures stays { stays self.old self.new }
        ensures cause { HasCause (faults self.old) (faults self.new) result };

    /// How many readings have failed, or 18446744073709551615 where there were more.
    fn read_faults(&self) -> u64
        ensures { result ≡ faults self.now };

    /// Where nothing was read, all stays.
    ghost stays_self: { (p : Self) → stays p p };

    /// What one reading leaves as it was, and then another one, both together do.
    ghost stays_on: { (p q r : Self) → stays p q → stays q r → stays p r };
}
