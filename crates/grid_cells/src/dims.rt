//! How many intervals each attribute has, and the indices of cells.
ghost use Rattle.std.specs.Prelude.{◌≡◌, ◌<◌, ℕ, List, MatchOption};
ghost use Rattle.grid_model.specs.Lists.{product};
ghost use Rattle.grid_model.specs.Cells.{cell_index, InCellBox};
ghost use Rattle.grid_model.specs.ScaleLaws.{IsCell};
ghost use Rattle.grid_cells.specs.Dims.{IsDims};
ghost use Rattle.grid_cells.specs.CellBoxes.{IsNextInCellBox, IsLastInCellBox};

use crate::walk;
use grid_types::CellBox;

/// How many intervals each attribute has. Each has one at least, and there are at most a million cells.
#[derive(Clone, Copy, Debug, PartialEq, Eq)]
pub struct Dims<const K: usize> {
    pub intervals: [u32; K],
    pub ghost lawful: { IsDims intervals },
}

impl<const K: usize> Dims<K> {
    /// How many cells there are.
    pub fn cells(&self) -> u32
        ensures { result ≡ product self.now.intervals }
    {
        let mut cells = 1;
        for a in 0..K {
            cells *= self.intervals[a];
        }
        cells
    }

    /// The index of a cell in the directory.
    pub fn index(&self, cell: &[u32; K]) -> u32
        requires { IsCell self.now.intervals cell.now }
        ensures value { result ≡ cell_index self.now.intervals cell.now }
        ensures below { result < product self.now.intervals }
    {
        let mut at = 0;
        for a in 0..K {
            at = at * self.intervals[a] + cell[a];
        }
        at
    }

    /// The cell at an index of the directory.
    pub fn cell(&self, at: u32) -> [u32; K]
        requires { at < product self.now.intervals }
        ensures cell { IsCell self.now.intervals result }
        ensures index { cell_index self.now.intervals result ≡ at }
        ensures only { (other : List ℕ)
            → IsCell self.now.intervals other
            → cell_index self.now.intervals other ≡ at
            → other ≡ result }
    {
        let mut cell = [0; K];
        let mut size = self.cells();
        let mut rest = at;
        for a in 0..K {
            size /= self.intervals[a];
            cell[a] = rest / size;
            rest %= size;
        }
        cell
    }

    /// The cell of the box that follows this one in the order of indices. The first of them is the box's low corner, and
    /// the last is the high one.
    pub fn next(&self, cells: &CellBox<K>, cell: &[u32; K]) -> Option<[u32; K]>
        requires highest { IsCell self.now.intervals cells.now.hi }
        requires inside { InCellBox cells.now cell.now }
        ensures { MatchOption result
            (IsLastInCellBox self.now.intervals cells.now cell.now)
            (IsNextInCellBox self.now.intervals cells.now cell.now) }
    {
        let Some(a) = walk::last_below(&cells.hi, cell) else {
            return None;
        };
        Some(walk::stepped(&cells.lo, cell, a))
    }
}
