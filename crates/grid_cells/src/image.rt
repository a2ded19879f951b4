//! What cells were before a refinement.
ghost use Rattle.std.specs.Prelude.{◌≡◌, ◌<◌};
ghost use Rattle.grid_model.specs.Cells.{interval_before, image_of};

/// The interval that was this one before interval `i` was split in two.
fn interval_before(interval: u32, i: u32) -> u32
    ensures { result ≡ interval_before i interval }
{
    if i < interval { interval - 1 } else { interval }
}

/// The cell that was this one before interval `i` of attribute `a` was split in two.
pub fn image_of<const K: usize>(cell: &[u32; K], a: u8, i: u32) -> [u32; K]
    requires { a < K }
    ensures { result ≡ image_of cell.now a i }
{
    let a = a as usize;
    let mut image = *cell;
    image[a] = interval_before(cell[a], i);
    image
}
