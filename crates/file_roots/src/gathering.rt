//! The entries of the pages of a table area, gathered as long as they are lawful.
ghost use Rattle.std.specs.Prelude.{◌≡◌, ◌<◌, ◌≤◌, ◌+◌, ◌-◌, ◌/◌, ◌++◌, ◌∷◌, [], ℕ, false, List, length, slice_index_or, slice_set, All, IsTrue, IfOk};
ghost use Rattle.grid_types.specs.declared.sizes.TheConstants.{NUMBERS_ON_PAGE, WORDS_ON_PAGE};
ghost use Rattle.grid_model.specs.Lists.{AreDistinct};
ghost use Rattle.grid_model.specs.Spellings.{RootFields};
ghost use Rattle.grid_model.specs.Scales.{is_scale, scale_of};
ghost use Rattle.linear_scales.specs.Limited.{LimitedScale, scales_of, limits_of};
ghost use Rattle.root_pages.specs.Reading.{AreOn};
ghost use Rattle.grid_model.specs.Roots.{AreRootFields};
ghost use Rattle.file_roots.specs.Gathering.{AreMarked, named_by, longer_scale, HasRoom, HasGathered};

use grid_types::{Geometry, PAGE_BYTES, PageList};
use linear_scales::{NOWHERE, Scales};
use root_pages::{boundary_at, entry_at};
use std::alloc::{AllocError, Global};

/// What was read of a root's table area: its lists as far as its pages went, and which data pages they name.
#[derive(Drop)]
pub struct Gathered<const K: usize> {
    pub scales: Scales<K>,
    pub parts: PageList,
    pub table: PageList,
    pub marks: Vec<bool>,
}

impl<const K: usize> Gathered<K> {
    /// Nothing yet. All memory for scales and marks is taken here.
    pub fn new(alloc: Global, geometry: &Geometry) -> Result<Gathered<K>, AllocError>
        requires { geometry.now.shape.k ≡ K }
        ensures room { IfOk result (HasRoom geometry.now.shape) }
        ensures empty { (image : List ℕ) (r : RootFields)
            → AreRootFields geometry.now.shape r
            → IfOk result (HasGathered geometry.now.shape image r 0) }
    {
        let scales = Scales::new(alloc, geometry.shape.boundaries as u16)?;
        let marks = vec![in alloc; false; geometry.shape.pages as usize]?;
        Ok(Gathered {
            scales,
            parts: PageList::new(alloc),
            table: PageList::new(alloc),
            marks,
        })
    }
}

/// Adds a boundary behind those of a scale. One that does not lie above them all is refused.
fn add_boundary<const K: usize>(scales: &mut Scales<K>, a: usize, v: u64) -> bool
    requires { a < K }
    ensures added { IsTrue result
        → scales_of scales.new
        ≡ slice_set (scales_of scales.old) a (longer_scale (scales_of scales.old) a (v ∷ [])) }
    ensures scale { IsTrue result
        → IsTrue (is_scale (longer_scale (scales_of scales.old) a (v ∷ []))) }
    ensures refused { result ≡ false
        → (d : LimitedScale)
        → length (scale_of (scales_of scales.old) a) < (slice_index_or scales.old a d).limit
        → IsTrue (is_scale (longer_scale (scales_of scales.old) a (v ∷ [])))
        → ⊥ }
    ensures limits { limits_of scales.new ≡ limits_of scales.old }
{
    let scale = scales.scale(a);
    let (last, _) = scale.bounds(scale.boundaries().len() as u32);
    if v <= last {
        return false;
    }
    scales.refine(a, v).is_ok()
}

/// Adds the boundaries of a page behind those of a scale, as long as they ascend.
pub fn take_boundaries<const K: usize>(
    scales: &mut Scales<K>,
    a: usize,
    page: &[u8; PAGE_BYTES],
    count: usize,
) -> bool
    requires attribute { a < K }
    requires few { count ≤ NUMBERS_ON_PAGE }
    requires attributes { length scales.old ≡ K }
    ensures taken { (xs : List ℕ)
        → AreOn 8 count page.now xs
        → IsTrue result
        → scales_of scales.new
        ≡ slice_set (scales_of scales.old) a (longer_scale (scales_of scales.old) a xs) }
    ensures scale { IsTrue (is_scale (scale_of (scales_of scales.old) a))
        → (xs : List ℕ)
        → AreOn 8 count page.now xs
        → IsTrue result
        → IsTrue (is_scale (longer_scale (scales_of scales.old) a xs)) }
    ensures refused { (xs : List ℕ)
        → AreOn 8 count page.now xs
        → result ≡ false
        → (d : LimitedScale)
        → length (longer_scale (scales_of scales.old) a xs) ≤ (slice_index_or scales.old a d).limit
        → IsTrue (is_scale (longer_scale (scales_of scales.old) a xs))
        → ⊥ }
    ensures limits { limits_of scales.new ≡ limits_of scales.old }
{
    for i in 0..count {
        if !add_boundary(scales, a, boundary_at(page, i)) {
            return false;
        }
    }
    true
}

/// Marks a data page that is one and is not marked yet.
fn mark(marks: &mut Vec<bool>, page: u32) -> bool
    ensures marked { (named : List ℕ)
        → AreMarked marks.old.items named
        → IsTrue result
        → AreMarked marks.new.items (named ++ page ∷ []) }
    ensures inside { IsTrue result → page < length marks.old.items }
    ensures refused { (named more : List ℕ)
        → AreMarked marks.old.items named
        → result ≡ false
        → page < length marks.old.items
        → AreDistinct (named ++ page ∷ more)
        → ⊥ }
    ensures count { length marks.new.items ≡ length marks.old.items }
{
    let at = page as usize;
    if at >= marks.len() {
        return false;
    }
    if marks[at] {
        return false;
    }
    marks[at] = true;
    true
}

/// Marks the data page that an entry names, where it names one.
fn mark_entry(marks: &mut Vec<bool>, entry: u32, may_be_nowhere: bool) -> bool
    ensures marked { (named : List ℕ)
        → AreMarked marks.old.items named
        → IsTrue result
        → AreMarked marks.new.items (named ++ named_by may_be_nowhere (entry ∷ [])) }
    ensures inside { IsTrue result
        → All (λ p. p < length marks.old.items) (named_by may_be_nowhere (entry ∷ [])) }
    ensures refused { (named more : List ℕ)
        → AreMarked marks.old.items named
        → result ≡ false
        → All (λ p. p < length marks.old.items) (named_by may_be_nowhere (entry ∷ []))
        → AreDistinct (named ++ (named_by may_be_nowhere (entry ∷ []) ++ more))
        → ⊥ }
    ensures count { length marks.new.items ≡ length marks.old.items }
{
    if may_be_nowhere && entry == NOWHERE {
        return true;
    }
    mark(marks, entry)
}

/// Adds the data pages of a page to a list and marks them, as long as each is one and none was marked.
pub fn take_pages(
    list: &mut PageList,
    marks: &mut Vec<bool>,
    page: &[u8; PAGE_BYTES],
    count: usize,
    may_be_nowhere: bool,
) -> Result<bool, AllocError>
    requires { count ≤ WORDS_ON_PAGE }
    ensures taken { (xs : List ℕ)
        → AreOn 4 count page.now xs
        → IfOk result (λ t. IsTrue t → list.new.items ≡ list.old.items ++ xs) }
    ensures inside { (xs : List ℕ)
        → AreOn 4 count page.now xs
        → IfOk result (λ t. IsTrue t
        → All (λ p. p < length marks.old.items) (named_by may_be_nowhere xs)) }
    ensures marked { (xs named : List ℕ)
        → AreOn 4 count page.now xs
        → AreMarked marks.old.items named
        → IfOk result (λ t. IsTrue t
        → AreMarked marks.new.items (named ++ named_by may_be_nowhere xs)) }
    ensures refused { (xs named : List ℕ)
        → AreOn 4 count page.now xs
        → AreMarked marks.old.items named
        → IfOk result (λ t. t ≡ false
        → All (λ p. p < length marks.old.items) (named_by may_be_nowhere xs)
        → AreDistinct (named ++ named_by may_be_nowhere xs)
        → ⊥) }
    ensures count { length marks.new.items ≡ length marks.old.items }
{
    for i in 0..count {
        let entry = entry_at(page, i);
        if !mark_entry(marks, entry, may_be_nowhere) {
            return Ok(false);
        }
        list.push(entry)?;
    }
    Ok(true)
}
