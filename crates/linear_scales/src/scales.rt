//! A scale for each attribute.
ghost use Rattle.std.specs.Prelude.{◌≡◌, ◌<◌, ◌≤◌, ◌↔◌, ℕ, List, [], length, replicate, slice_index_or, IsTrue, OnOk, OnErr, IfOk, IfErr};
ghost use Rattle.grid_types.specs.Queries.{is_straight, is_lawful, begin_of, end_of};
ghost use Rattle.grid_types.specs.declared.query.Side.{Side};
ghost use Rattle.grid_types.specs.declared.sizes.TheConstants.{MOST_ATTRIBUTES};
ghost use Rattle.grid_types.specs.Keys.{IsKey};
ghost use Rattle.grid_types.specs.Regions.{contains, IsRegion};
ghost use Rattle.grid_model.specs.Scales.{scale_of, refined_at};
ghost use Rattle.grid_model.specs.Cells.{dims, cell_of, InCellBox};
ghost use Rattle.grid_model.specs.Lone.{boundaries};
ghost use Rattle.grid_model.specs.ScaleLaws.{IsCell};
ghost use Rattle.linear_scales.specs.Limited.{LimitedScale, scales_of, limits_of};
ghost use Rattle.linear_scales.specs.Refusals.{TakesBoundary, IsCause};
ghost use Rattle.linear_scales.specs.Sides.{Meets};
ghost use Rattle.linear_scales.specs.Queries.{lowest_cell, highest_cell, MeetsQuery};

use crate::{Scale, ScaleRefused};
use grid_types::{CellBox, Key, MOST_ATTRIBUTES, Query, Region, Side};
use std::alloc::{AllocError, Global};
use std::marker::Model;

/// A scale for each of the K attributes.
#[derive(Drop)]
pub struct Scales<const K: usize> {
    scales: Vec<Scale>,
}

impl<const K: usize> Model for Scales<K> {
    ghost use Rattle.std.specs.Prelude.{◌≡◌, List, length};
    ghost use Rattle.linear_scales.specs.Limited.{LimitedScale};

    ghost Value = { List LimitedScale };

    ghost view = { λ s. s.scales.items };

    ghost invariant = { λ s. length s.scales.items ≡ K };
}

/// Makes scales the other ones. It takes no memory.
fn copy_each(scales: &mut [Scale], others: &[Scale])
    requires count { length others.now ≡ length scales.old }
    requires limits { limits_of others.now ≡ limits_of scales.old }
    ensures { scales.new ≡ others.now }
{
    for a in 0..others.len() {
        scales[a].copy_from(&others[a]);
    }
}

/// The interval of each number in the scale of its attribute.
fn intervals_of<const K: usize>(scales: &[Scale], numbers: &[u64; K]) -> [u32; K]
    requires { length scales.now ≡ K }
    ensures value { result ≡ cell_of (scales_of scales.now) numbers.now }
    ensures inside { IsCell (dims (scales_of scales.now)) result }
{
    let mut cell = [0; K];
    for a in 0..K {
        cell[a] = scales[a].interval(numbers[a]);
    }
    cell
}

/// How many intervals each scale has.
fn dims_of<const K: usize>(scales: &[Scale]) -> [u32; K]
    requires { length scales.now ≡ K }
    ensures { result ≡ dims (scales_of scales.now) }
{
    let mut dims = [0; K];
    for a in 0..K {
        dims[a] = scales[a].intervals();
    }
    dims
}

/// How many boundaries the scales have together.
fn count_boundaries(scales: &[Scale]) -> u32
    requires few { length scales.now ≤ MOST_ATTRIBUTES }
    ensures { result ≡ boundaries (scales_of scales.now) }
{
    let mut count = 0;
    for a in 0..scales.len() {
        count += scales[a].boundaries().len() as u32;
    }
    count
}

/// The intervals of each scale that meet the side of its attribute, as a box of cells.
fn ranges_of<const K: usize>(scales: &[Scale], sides: &[Side; K]) -> CellBox<K>
    requires count { length scales.now ≡ K }
    requires lawful { IsTrue (is_lawful sides.now) }
    ensures lowest { result.lo ≡ lowest_cell (scales_of scales.now) sides.now }
    ensures highest { result.hi ≡ highest_cell (scales_of scales.now) sides.now }
    ensures meets { (cell : List ℕ)
        → IsCell (dims (scales_of scales.now)) cell
        → MeetsQuery K (scales_of scales.now) sides.now cell ↔ InCellBox result cell }
{
    let mut lo = [0; K];
    let mut hi = [0; K];
    for a in 0..K {
        let (lowest, highest) = scales[a].interval_range(&sides[a]);
        lo[a] = lowest;
        hi[a] = highest;
    }
    CellBox { lo, hi }
}

/// The lowest and the highest number of the interval of each scale in a cell, as a region.
fn bounds_of<const K: usize>(scales: &[Scale], cell: &[u32; K]) -> Region<K>
    requires count { length scales.now ≡ K }
    requires cell { IsCell (dims (scales_of scales.now)) cell.now }
    ensures some { IsRegion K result }
    ensures keys { (key : List ℕ)
        → IsKey K key
        → IsTrue (contains result key) ↔ (cell_of (scales_of scales.now) key ≡ cell.now) }
{
    let mut lo = [0; K];
    let mut hi = [0; K];
    for a in 0..K {
        let scale = &scales[a];
        let _limit = scale.limit();
        let (low, high) = scale.bounds(cell[a]);
        lo[a] = low;
        hi[a] = high;
    }
    Region { lo, hi }
}

impl<const K: usize> Scales<K> {
    /// A scale without boundaries for each attribute. All memory for boundaries up to the limit is taken here.
    pub fn new(alloc: Global, limit: u16) -> Result<Scales<K>, AllocError>
        ensures { IfOk result (λ s. s ≡ replicate K (record { boundaries = []; limit = limit })) }
    {
        let mut scales = Vec::with_capacity(alloc, K)?;
        for _a in 0..K {
            scales.push(Scale::new(alloc, limit)?)?;
        }
        Ok(Scales { scales })
    }

    /// The scale of an attribute.
    pub fn scale(&self, a: usize) -> &Scale
        requires { a < K }
        ensures scale { (d : LimitedScale) → result.now ≡ slice_index_or self.now a d }
        ensures boundaries { result.now.boundaries ≡ scale_of (scales_of self.now) a }
        ensures count { length self.now ≡ K }
    {
        &self.scales[a]
    }

    /// Adds a boundary to the scale of an attribute. It takes no memory.
    pub fn refine(&mut self, a: usize, v: u64) -> Result<(), ScaleRefused>
        requires attribute { a < K }
        requires low { 1 ≤ v }
        ensures taken { (d : LimitedScale)
            → OnOk result (TakesBoundary (slice_index_or self.old a d) v) }
        ensures refused { (d : LimitedScale)
            → IfErr result (IsCause (slice_index_or self.old a d) v) }
        ensures scales { OnOk result (scales_of self.new ≡ refined_at (scales_of self.old) a v) }
        ensures limits { limits_of self.new ≡ limits_of self.old }
        ensures unchanged { OnErr result (self.new ≡ self.old) }
    {
        self.scales[a].refine(v)
    }

    /// Makes these scales the other ones. It takes no memory.
    pub fn copy_from(&mut self, other: &Scales<K>)
        requires { limits_of other.now ≡ limits_of self.old }
        ensures { self.new ≡ other.now }
    {
        copy_each(&mut self.scales, &other.scales);
    }

    /// How many intervals each attribute has.
    pub fn dims(&self) -> [u32; K]
        ensures { result ≡ dims (scales_of self.now) }
    {
        dims_of(&self.scales)
    }

    /// How many boundaries all attributes have together.
    pub fn boundaries(&self) -> u32
        requires few { K ≤ MOST_ATTRIBUTES }
        ensures { result ≡ boundaries (scales_of self.now) }
    {
        count_boundaries(&self.scales)
    }

    /// The cell of a key.
    pub fn cell_of(&self, key: &Key<K>) -> [u32; K]
        ensures value { result ≡ cell_of (scales_of self.now) key.now.numbers }
        ensures inside { IsCell (dims (scales_of self.now)) result }
    {
        intervals_of(&self.scales, &key.numbers)
    }

    /// The keys of a cell, as a region.
    pub fn keys_of(&self, cell: &[u32; K]) -> Region<K>
        requires { IsCell (dims (scales_of self.now)) cell.now }
        ensures some { IsRegion K result }
        ensures keys { (key : List ℕ)
            → IsKey K key
            → IsTrue (contains result key) ↔ (cell_of (scales_of self.now) key ≡ cell.now) }
    {
        bounds_of(&self.scales, cell)
    }

    /// The box of the cells that a query meets.
    pub fn cells_meeting(&self, query: &Query<K>) -> CellBox<K>
        requires { IsTrue (is_lawful query.now.sides) }
        ensures lowest { result.lo ≡ lowest_cell (scales_of self.now) query.now.sides }
        ensures highest { result.hi ≡ highest_cell (scales_of self.now) query.now.sides }
        ensures meets { (cell : List ℕ)
            → IsCell (dims (scales_of self.now)) cell
            → MeetsQuery K (scales_of self.now) query.now.sides cell ↔ InCellBox result cell }
    {
        ranges_of(&self.scales, &query.sides)
    }
}
