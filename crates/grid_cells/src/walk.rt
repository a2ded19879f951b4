//! The walk through a box of cells.
ghost use Rattle.std.specs.Prelude.{◌≡◌, ◌<◌, ◌≤◌, ◌+◌, ◌++◌, ◌∷◌, ℕ, slice_index, take, drop, IfSome, IfNone};
ghost use Rattle.grid_cells.specs.Walks.{IsLastBelow};

/// The last attribute in which the cell lies below the other one.
pub fn last_below<const K: usize>(hi: &[u32; K], cell: &[u32; K]) -> Option<usize>
    requires { (b : ℕ) → b < K → slice_index cell.now b ≤ slice_index hi.now b }
    ensures found { IfSome result (IsLastBelow K hi.now cell.now) }
    ensures none { IfNone result ((b : ℕ) → b < K → slice_index cell.now b ≡ slice_index hi.now b) }
{
    for a in (0..K).rev() {
        if cell[a] < hi[a] {
            return Some(a);
        }
    }
    None
}

/// The cell with its interval of an attribute one up, and the box's lowest intervals in the attributes behind it.
pub fn stepped<const K: usize>(lo: &[u32; K], cell: &[u32; K], a: usize) -> [u32; K]
    requires inside { a < K }
    requires room { slice_index cell.now a < 4294967295 }
    ensures { result ≡ take a cell.now ++ (slice_index cell.now a + 1) ∷ drop (a + 1) lo.now }
{
    let mut next = *lo;
    next[..a].copy_from_slice(&cell[..a]);
    next[a] = cell[a] + 1;
    next
}
