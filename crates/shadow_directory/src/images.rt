//! What the cells of a part were before a growth.
ghost use Rattle.std.specs.Prelude.{◌≡◌, ◌<◌, ◌≤◌, ◌*◌, ◌+◌, ◌/◌, ◌%◌, ℕ, List, min, slice_index, Some, MatchOption};
ghost use Rattle.grid_model.specs.Lists.{product};
ghost use Rattle.grid_model.specs.Cells.{cell_index, image_of};
ghost use Rattle.grid_model.specs.ScaleLaws.{IsCell};
ghost use Rattle.directory_pages.specs.Spelling.{bucket_in};
ghost use Rattle.directory_pages.specs.CellBoxes.{cells_on};
ghost use Rattle.shadow_directory.specs.Images.{AreImages, IsNextNeeded, IsNoneNeeded, IsSplit};

use crate::reading::cells_on;
use directory_pages::bucket_at;
use grid_cells::{Dims, image_of};
use grid_types::PAGE_BYTES;

/// The index that a cell of the refined directory had before.
fn image_index<const K: usize>(
    old: &Dims<K>,
    new: &Dims<K>,
    at: u32,
    attribute: u8,
    interval: u32,
) -> u32
    requires inside { at < product new.now.intervals }
    requires split { IsSplit old.now.intervals new.now.intervals attribute interval }
    ensures below { result < product old.now.intervals }
    ensures image { (cell : List ℕ)
        → IsCell new.now.intervals cell
        → cell_index new.now.intervals cell ≡ at
        → result ≡ cell_index old.now.intervals (image_of cell attribute interval) }
{
    old.index(&image_of(&new.cell(at), attribute, interval))
}

/// The indices that the cells of a part of the refined directory had before. The answer is how many they are.
pub fn find_images<const K: usize>(
    old: &Dims<K>,
    new: &Dims<K>,
    part: u32,
    attribute: u8,
    interval: u32,
    images: &mut [u32; 1000],
) -> usize
    requires inside { 1000 * part < product new.now.intervals }
    requires split { IsSplit old.now.intervals new.now.intervals attribute interval }
    ensures count { result ≡ cells_on new.now.intervals part }
    ensures found { AreImages old.now.intervals new.now.intervals attribute interval part result
        images.new }
{
    let count = cells_on(new, part) as usize;
    for k in 0..count {
        images[k] = image_index(old, new, 1000 * part + k as u32, attribute, interval);
    }
    count
}

/// The nearer of a part and the next so far, where the part is from another one on.
fn nearer(next: Option<u32>, part: u32, from: u32) -> Option<u32>
    ensures none { part < from → result ≡ next }
    ensures some { from ≤ part → MatchOption next
        (result ≡ Some part)
        (λ best. result ≡ Some (min best part)) }
{
    if part < from {
        return next;
    }
    match next {
        Some(best) => Some(best.min(part)),
        None => Some(part),
    }
}

/// The least part from this one on that has one of the first `count` of these indices.
pub fn next_needed(images: &[u32; 1000], count: usize, from: u32) -> Option<u32>
    requires { count ≤ 1000 }
    ensures { MatchOption result
        (IsNoneNeeded images.now count from)
        (IsNextNeeded images.now count from) }
{
    let mut next = None;
    for k in 0..count {
        next = nearer(next, images[k] / 1000, from);
    }
    next
}

/// Takes the buckets of the first `count` indices that lie on this old part from its page.
pub fn take_buckets(
    images: &[u32; 1000],
    count: usize,
    part: u32,
    page: &[u8; PAGE_BYTES],
    buckets: &mut [u32; 1000],
)
    requires { count ≤ 1000 }
    ensures taken { (k : ℕ)
        → k < count
        → slice_index images.now k / 1000 ≡ part
        → slice_index buckets.new k ≡ bucket_in (slice_index images.now k % 1000) page.now }
    ensures others { (k : ℕ)
        → (slice_index images.now k / 1000 ≡ part → ⊥)
        → slice_index buckets.new k ≡ slice_index buckets.old k }
{
    for k in 0..count {
        if images[k] / 1000 == part {
            buckets[k] = bucket_at(page, images[k] % 1000);
        }
    }
}
