//! What a root says on its header page.
ghost use Rattle.std.specs.Prelude.{◌≡◌, ◌<◌, ◌≤◌, ◌^◌, length};
ghost use Rattle.grid_types.specs.declared.sizes.TheConstants.{MOST_ATTRIBUTES};
ghost use Rattle.grid_model.specs.Lawful.{pages_named};
ghost use Rattle.linear_scales.specs.Roots.{root_fields_of, IsRoot};
ghost use Rattle.root_pages.specs.Fields.{model_fields};

use arrayvec::ArrayVec;
use grid_types::Geometry;
use linear_scales::{NOWHERE, Root};
use root_pages::RootHeader;

/// How many bucket numbers a table has.
pub fn count_named(table: &[u32]) -> usize
    ensures value { result ≡ length (pages_named table.now) }
    ensures small { result ≤ length table.now }
{
    let mut count = 0;
    for page in table {
        if *page != NOWHERE {
            count += 1;
        }
    }
    count
}

/// The fields of a root, whose lists are short enough.
fn fields<const K: usize>(root: &Root<K>) -> RootHeader
    requires few { K ≤ MOST_ATTRIBUTES }
    requires count { length root.now.scales ≡ K }
    requires parts { length root.now.parts.items < 2 ^ 32 }
    requires numbers { length root.now.table.items < 2 ^ 32 }
    ensures { model_fields result ≡ root_fields_of root.now }
{
    let mut boundaries = ArrayVec::new();
    for a in 0..K {
        boundaries.push(root.scales.scale(a).boundaries().len() as u32);
    }
    RootHeader {
        number: root.number,
        session: root.session,
        front: root.front,
        records: root.records,
        boundaries,
        parts: root.parts.list().len() as u32,
        buckets: count_named(root.table.list()) as u32,
    }
}

/// The fields of a root as its header page has them. It takes no memory.
pub fn header_of<const K: usize>(geometry: &Geometry, root: &Root<K>) -> RootHeader
    requires attributes { geometry.now.shape.k ≡ K }
    requires root { IsRoot geometry.now.shape root.now }
    ensures { model_fields result ≡ root_fields_of root.now }
{
    fields(root)
}
