//! The newest root of a file, from its header page and its table area.
ghost use Rattle.std.specs.Prelude.{◌≡◌, ◌<◌, ◌≤◌, ◌+◌, ◌*◌, ℕ, replicate, IsTrue, IfOk, OnErr};
ghost use Rattle.grid_types.specs.declared.sizes.TheConstants.{PAGE_BYTES};
ghost use Rattle.grid_types.specs.Shapes.{area_pages, file_pages};
ghost use Rattle.grid_model.specs.Lawful.{Area};
ghost use Rattle.root_pages.specs.Fields.{model_fields};
ghost use Rattle.linear_scales.specs.Limited.{limits_of};
ghost use Rattle.disk_trait.specs.Calls.{OnlyReads, HasCauses};
ghost use Rattle.grid_model.specs.Roots.{AreRootFields};
ghost use Rattle.linear_scales.specs.Roots.{IsRoot};
ghost use Rattle.file_roots.specs.Damage.{HasAreaUpTo};
ghost use Rattle.file_roots.specs.Gathering.{HasRoom, HasGathered};
ghost use Rattle.file_roots.specs.Headers.{AreHeaderPages};
ghost use Rattle.file_roots.specs.Reading.{Gathers, TellsNewest, TakesSteps};
ghost use Rattle.file_roots.specs.Refusals.{MayRefuseReading};

use crate::choosing::choose;
use crate::gathering::Gathered;
use crate::judging::take_area_page;
use disk_trait::{Disk, Steps, read_page};
use grid_types::{Geometry, PAGE_BYTES, Refusal};
use linear_scales::Root;
use root_pages::RootHeader;
use std::alloc::{AllocError, Global};
use std::sync::ledger::Ledger;

/// Reads page `i` of the root's table area, and takes what it says.
fn read_area_page<const K: usize, D: Disk, L: Ledger>(
    disk: &mut D,
    geometry: &Geometry,
    fields: &RootHeader,
    gathered: &mut Gathered<K>,
    i: u32,
    steps: &mut Steps<L>,
) -> Result<(), Refusal>
    requires root { AreRootFields geometry.now.shape (model_fields fields.now) }
    requires inside { i < area_pages geometry.now.shape }
    requires room { HasRoom geometry.now.shape gathered.old }
    requires size { file_pages geometry.now.shape * PAGE_BYTES ≤ D.extent disk.old }
    ensures gathers { Gathers D.Disk geometry.now.shape (model_fields fields.now)
        i (i + 1) disk.old gathered.old gathered.new result }
    ensures same { OnlyReads D.Disk disk.old disk.new }
    ensures causes { HasCauses D.Disk MayRefuseReading disk.old disk.new result }
    ensures ticks { steps.new ≡ steps.old + 1 }
{
    let number = geometry.table_page((fields.number % 2) as u8, i);
    let mut page = [0; PAGE_BYTES];
    read_page(disk, number.into(), &mut page, steps)?;
    match take_area_page(gathered, geometry, fields, i, &page) {
        Ok(true) => Ok(()),
        Ok(false) => Err(Refusal::Damaged { page: number }),
        Err(AllocError) => Err(Refusal::NoMemory),
    }
}

/// Reads the root's table area, page by page.
fn read_area<const K: usize, D: Disk, L: Ledger>(
    disk: &mut D,
    geometry: &Geometry,
    fields: &RootHeader,
    gathered: &mut Gathered<K>,
    steps: &mut Steps<L>,
) -> Result<(), Refusal>
    requires root { AreRootFields geometry.now.shape (model_fields fields.now) }
    requires room { HasRoom geometry.now.shape gathered.old }
    requires size { file_pages geometry.now.shape * PAGE_BYTES ≤ D.extent disk.old }
    ensures gathers { Gathers D.Disk geometry.now.shape (model_fields fields.now)
        0 (area_pages geometry.now.shape) disk.old gathered.old gathered.new result }
    ensures good_before { IsTrue (D.honest disk.old)
        → HasGathered geometry.now.shape (D.seen disk.old) (model_fields fields.now) 0 gathered.old
        → (n : ℕ)
        → steps.new ≡ steps.old + n + 1
        → OnErr result ((a : Area) × HasAreaUpTo geometry.now.shape
        (D.seen disk.old) (model_fields fields.now) n a) }
    ensures same { OnlyReads D.Disk disk.old disk.new }
    ensures causes { HasCauses D.Disk MayRefuseReading disk.old disk.new result }
    ensures ticks { TakesSteps (area_pages geometry.now.shape) steps.old steps.new result }
{
    for i in 0..geometry.area_pages() {
        read_area_page(disk, geometry, fields, gathered, i, steps)?;
    }
    Ok(())
}

/// Reads the newest root of a file whose header pages are at hand: its table area in order, and neither header page again.
/// It tells what `read_newest` tells, as if it had read the two header pages first.
pub fn read_newest_from<const K: usize, D: Disk, L: Ledger>(
    alloc: Global,
    disk: &mut D,
    geometry: &Geometry,
    zeroth: &[u8; PAGE_BYTES],
    first: &[u8; PAGE_BYTES],
    steps: &mut Steps<L>,
) -> Result<Root<K>, Refusal>
    requires attributes { geometry.now.shape.k ≡ K }
    requires size { file_pages geometry.now.shape * PAGE_BYTES ≤ D.extent disk.old }
    ensures tells { IsTrue (D.honest disk.old)
        → AreHeaderPages (D.seen disk.old) zeroth.now first.now
        → TellsNewest geometry.now.shape (D.seen disk.old) steps.old (steps.new + 2) result }
    ensures lawful { IfOk result (λ root. IsRoot geometry.now.shape root) }
    ensures limits { IfOk result (λ root.
        limits_of root.scales ≡ replicate K geometry.now.shape.boundaries) }
    ensures same { OnlyReads D.Disk disk.old disk.new }
    ensures causes { HasCauses D.Disk MayRefuseReading disk.old disk.new result }
    ensures ticks { TakesSteps (area_pages geometry.now.shape) steps.old steps.new result }
{
    let fields = choose(zeroth, first, geometry)?;
    let mut gathered = match Gathered::<K>::new(alloc, geometry) {
        Ok(gathered) => gathered,
        Err(AllocError) => return Err(Refusal::NoMemory),
    };
    read_area(disk, geometry, &fields, &mut gathered, steps)?;
    Ok(Root {
        number: fields.number,
        session: fields.session,
        front: fields.front,
        records: fields.records,
        scales: gathered.scales,
        parts: gathered.parts,
        table: gathered.table,
    })
}

/// Reads the newest root: both header pages, and then its table area in order. A page that is not what it has to be is
/// named, header pages before the table area.
pub fn read_newest<const K: usize, D: Disk, L: Ledger>(
    alloc: Global,
    disk: &mut D,
    geometry: &Geometry,
    steps: &mut Steps<L>,
) -> Result<Root<K>, Refusal>
    requires attributes { geometry.now.shape.k ≡ K }
    requires size { file_pages geometry.now.shape * PAGE_BYTES ≤ D.extent disk.old }
    ensures tells { IsTrue (D.honest disk.old)
        → TellsNewest geometry.now.shape (D.seen disk.old) steps.old steps.new result }
    ensures lawful { IfOk result (λ root. IsRoot geometry.now.shape root) }
    ensures limits { IfOk result (λ root.
        limits_of root.scales ≡ replicate K geometry.now.shape.boundaries) }
    ensures same { OnlyReads D.Disk disk.old disk.new }
    ensures causes { HasCauses D.Disk MayRefuseReading disk.old disk.new result }
    ensures ticks { TakesSteps (2 + area_pages geometry.now.shape) steps.old steps.new result }
{
    let mut zeroth = [0; PAGE_BYTES];
    read_page(disk, 0, &mut zeroth, steps)?;
    let mut first = [0; PAGE_BYTES];
    read_page(disk, 1, &mut first, steps)?;
    read_newest_from(alloc, disk, geometry, &zeroth, &first, steps)
}
