//! What a survey has found of a file, judged by the pages that its root names.
ghost use Rattle.std.specs.Prelude.{◌≡◌, ◌≢◌, ◌<◌, ◌≤◌, ◌+◌, ◌*◌, ℕ, List, Ok, None, IsTrue, IfOk, IfSome, IfNone, length, slice_index};
ghost use Rattle.grid_types.specs.declared.refusal.Refusal.TheVariants.{ReadFault};
ghost use Rattle.grid_types.specs.declared.sizes.TheConstants.{PAGE_BYTES, MOST_ATTRIBUTES};
ghost use Rattle.grid_types.specs.Shapes.{file_pages};
ghost use Rattle.grid_model.specs.Cells.{dims as dims_of, cells};
ghost use Rattle.grid_model.specs.Lawful.{pages_named};
ghost use Rattle.linear_scales.specs.Limited.{scales_of};
ghost use Rattle.linear_scales.specs.Roots.{IsRoot, whole_of};
ghost use Rattle.disk_trait.specs.Calls.{OnlyReads, HasCauses};
ghost use Rattle.grid_check.specs.Marks.{MarksBuckets};
ghost use Rattle.grid_check.specs.Reads.{AreNamed, AreHeld, MayRefusePages};
ghost use Rattle.grid_check.specs.Rules.{IsNumbered};
ghost use Rattle.grid_check.specs.Verdicts.{IsJudged, IsJudgedBelow, KeepsBelow};

use crate::Holding;
use crate::buckets::first_bad_bucket;
use crate::cells::first_bad_cell;
use crate::covers::first_bad_cover;
use crate::faces::first_bad_face;
use crate::parts::first_bad_part;
use crate::records::count_records;
use crate::verdict::{Breach, Rule};
use disk_trait::{Disk, Steps};
use grid_cells::Dims;
use grid_types::{Geometry, Refusal, Region};
use linear_scales::Root;
use std::alloc::{AllocError, Global};
use std::collections::BTreeMap;
use std::sync::ledger::Ledger;

/// How many intervals each scale of a root has.
fn intervals_of<const K: usize>(geometry: &Geometry, root: &Root<K>) -> Dims<K>
    requires few { K ≤ MOST_ATTRIBUTES }
    requires lawful { IsRoot geometry.now.shape root.now }
    ensures { result.intervals ≡ dims_of (scales_of root.now.scales) }
{
    Dims {
        intervals: root.scales.dims(),
    }
}

/// Judges the directory pages by both rules on them, and takes the numbers that their cells name.
fn judge_directory<const K: usize, D: Disk, L: Ledger>(
    disk: &mut D,
    geometry: &Geometry,
    dims: &Dims<K>,
    root: &Root<K>,
    names: &mut [u32],
    steps: &mut Steps<L>,
) -> Result<Option<Breach>, Refusal>
    requires size { file_pages geometry.now.shape * PAGE_BYTES ≤ D.extent disk.old }
    requires few { K ≤ MOST_ATTRIBUTES }
    requires lawful { IsRoot geometry.now.shape root.now }
    requires dims { dims.now.intervals ≡ dims_of (scales_of root.now.scales) }
    requires cells { length names.old ≡ cells (scales_of root.now.scales) }
    ensures judged { IsTrue (D.honest disk.old)
        → IfOk result (IsJudgedBelow K geometry.now.shape (D.seen disk.old)
        (whole_of root.now) 2) }
    ensures named { IsTrue (D.honest disk.old)
        → result ≡ Ok None
        → AreNamed geometry.now.shape (D.seen disk.old) root.now.parts.items
        names.new (cells (scales_of root.now.scales)) }
    ensures numbered { result ≡ Ok None
        → (at : ℕ)
        → at < length names.new
        → IsNumbered root.now.table.items (slice_index names.new at) }
    ensures cells { length names.new ≡ length names.old }
    ensures same { OnlyReads D.Disk disk.old disk.new }
    ensures causes { HasCauses D.Disk (λ e. e ≡ ReadFault) disk.old disk.new result }
    ensures ticks { steps.new ≤ steps.old + length root.now.parts.items }
{
    if let Some(page) = first_bad_part(disk, geometry, dims, &root.parts, names, steps)? {
        return Ok(Some(Breach {
            page,
            rule: Rule::Part,
        }));
    }
    match first_bad_cell(geometry, dims, &root.parts, &root.table, names) {
        Some(page) => Ok(Some(Breach {
            page,
            rule: Rule::Cell,
        })),
        None => Ok(None),
    }
}

/// Judges what was read of a file's pages by the rules on regions and records.
fn judge_held<const K: usize>(
    geometry: &Geometry,
    dims: &Dims<K>,
    root: &Root<K>,
    names: &[u32],
    holdings: &[Holding<K>],
) -> Option<Breach>
    requires few { K ≤ MOST_ATTRIBUTES }
    requires lawful { IsRoot geometry.now.shape root.now }
    requires dims { dims.now.intervals ≡ dims_of (scales_of root.now.scales) }
    requires cells { length names.now ≡ cells (scales_of root.now.scales) }
    requires numbered { (at : ℕ)
        → at < length names.now
        → IsNumbered root.now.table.items (slice_index names.now at) }
    requires room { length holdings.now ≡ length root.now.table.items }
    ensures judged { (image : List ℕ)
        → AreNamed geometry.now.shape image root.now.parts.items
        names.now (cells (scales_of root.now.scales))
        → AreHeld geometry.now.shape image root.now.table.items
        holdings.now (length root.now.table.items)
        → KeepsBelow K geometry.now.shape image (whole_of root.now) 3
        → IsJudgedBelow K geometry.now.shape image (whole_of root.now) 6 result }
{
    let table = &root.table;
    if let Some(page) = first_bad_face(geometry, &root.scales, table, holdings) {
        return Some(Breach {
            page,
            rule: Rule::Face,
        });
    }
    if let Some(page) = first_bad_cover(geometry, dims, &root.scales, table, names, holdings) {
        return Some(Breach {
            page,
            rule: Rule::Cover,
        });
    }
    if count_records(geometry, table, holdings) != root.records {
        return Some(Breach {
            page: (root.number % 2) as u32,
            rule: Rule::Records,
        });
    }
    None
}

/// A number for each cell, 0 yet.
fn room_for_names(alloc: Global, cells: u32) -> Result<Vec<u32>, AllocError>
    ensures { IfOk result (λ v. length v.items ≡ cells) }
{
    Ok(vec![in alloc; 0; cells as usize]?)
}

/// Room for what is held of each bucket.
fn room_for_holdings<const K: usize>(
    alloc: Global,
    pages: u32,
) -> Result<Vec<Holding<K>>, AllocError>
    requires few { K ≤ MOST_ATTRIBUTES }
    ensures { IfOk result (λ v. length v.items ≡ pages) }
{
    let nothing = Holding {
        region: Region {
            lo: [0; K],
            hi: [0; K],
        },
        count: 0,
    };
    Ok(vec![in alloc; nothing; pages as usize]?)
}

/// Judges the pages that a root names by all rules, in their order. What is read of them stands in `names` and `holdings` then,
/// and the keys of all records are marked, those that have a mark.
fn judge_pages<const K: usize, D: Disk, L: Ledger>(
    disk: &mut D,
    geometry: &Geometry,
    root: &Root<K>,
    names: &mut [u32],
    holdings: &mut [Holding<K>],
    marks: &mut BTreeMap<[u64; K], bool>,
    steps: &mut Steps<L>,
) -> Result<Option<Breach>, Refusal>
    requires size { file_pages geometry.now.shape * PAGE_BYTES ≤ D.extent disk.old }
    requires few { K ≤ MOST_ATTRIBUTES }
    requires lawful { IsRoot geometry.now.shape root.now }
    requires cells { length names.old ≡ cells (scales_of root.now.scales) }
    requires room { length holdings.old ≡ geometry.now.shape.pages }
    ensures judged { IsTrue (D.honest disk.old)
        → IfOk result (IsJudgedBelow K geometry.now.shape (D.seen disk.old)
        (whole_of root.now) 6) }
    ensures marked { IsTrue (D.honest disk.old)
        → result ≡ Ok None
        → MarksBuckets K geometry.now.shape (D.seen disk.old) root.now.table.items
        marks.old marks.new }
    ensures same { OnlyReads D.Disk disk.old disk.new }
    ensures causes { HasCauses D.Disk (λ e. e ≡ ReadFault) disk.old disk.new result }
    ensures ticks { steps.new ≤ steps.old + length root.now.parts.items
        + length (pages_named root.now.table.items) }
{
    let dims = intervals_of(geometry, root);
    if let Some(breach) = judge_directory(disk, geometry, &dims, root, names, steps)? {
        return Ok(Some(breach));
    }
    if let Some(page) = first_bad_bucket(disk, geometry, &root.table, holdings, marks, steps)? {
        return Ok(Some(Breach {
            page,
            rule: Rule::Bucket,
        }));
    }
    Ok(judge_held(geometry, &dims, root, names, holdings))
}

/// Takes memory for what is read of the pages that a root names, and judges them by all rules, in their order. It marks the
/// keys of all records, those that have a mark.
pub(crate) fn judge_root<const K: usize, D: Disk, L: Ledger>(
    alloc: Global,
    disk: &mut D,
    geometry: &Geometry,
    root: &Root<K>,
    marks: &mut BTreeMap<[u64; K], bool>,
    steps: &mut Steps<L>,
) -> Result<Option<Breach>, Refusal>
    requires size { file_pages geometry.now.shape * PAGE_BYTES ≤ D.extent disk.old }
    requires few { K ≤ MOST_ATTRIBUTES }
    requires lawful { IsRoot geometry.now.shape root.now }
    ensures judged { IsTrue (D.honest disk.old)
        → IfOk result (IsJudgedBelow K geometry.now.shape (D.seen disk.old)
        (whole_of root.now) 6) }
    ensures marked { IsTrue (D.honest disk.old)
        → result ≡ Ok None
        → MarksBuckets K geometry.now.shape (D.seen disk.old) root.now.table.items
        marks.old marks.new }
    ensures same { OnlyReads D.Disk disk.old disk.new }
    ensures causes { HasCauses D.Disk MayRefusePages disk.old disk.new result }
    ensures ticks { steps.new ≤ steps.old + length root.now.parts.items
        + length (pages_named root.now.table.items) }
{
    let cells = intervals_of(geometry, root).cells();
    let Ok(mut names) = room_for_names(alloc, cells) else {
        return Err(Refusal::NoMemory);
    };
    let Ok(mut holdings) = room_for_holdings(alloc, geometry.shape.pages) else {
        return Err(Refusal::NoMemory);
    };
    match judge_pages(
        disk,
        geometry,
        root,
        &mut names,
        &mut holdings,
        marks,
        steps,
    ) {
        Ok(found) => Ok(found),
        Err(_) => Err(Refusal::ReadFault),
    }
}
