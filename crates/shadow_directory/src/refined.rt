//! The numbers of intervals of a refined directory.
ghost use Rattle.std.specs.Prelude.{◌≡◌, ◌<◌, ◌≤◌, length};
ghost use Rattle.grid_types.specs.declared.sizes.TheConstants.{MOST_CELLS};
ghost use Rattle.grid_model.specs.Lists.{product};
ghost use Rattle.grid_cells.specs.Dims.{IsDims};
ghost use Rattle.directory_changes.specs.Changes.{grown};

use grid_cells::Dims;

/// The numbers of intervals with one more in an attribute.
fn with_one_more<const K: usize>(intervals: &[u32; K], attribute: u8) -> [u32; K]
    requires lawful { IsDims intervals.now }
    requires attribute { attribute < length intervals.now }
    ensures { result ≡ grown intervals.now attribute }
{
    let mut more = *intervals;
    more[attribute as usize] += 1;
    more
}

/// The numbers of intervals of the directory in which an interval of an attribute was split in two.
pub fn refined<const K: usize>(dims: &Dims<K>, attribute: u8) -> Dims<K>
    requires attribute { attribute < length dims.now.intervals }
    requires few { product (grown dims.now.intervals attribute) ≤ MOST_CELLS }
    ensures { result.intervals ≡ grown dims.now.intervals attribute }
{
    let intervals = with_one_more(&dims.intervals, attribute);
    Dims { intervals }
}
