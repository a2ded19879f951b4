//! How many lines are puts.
ghost use Rattle.std.specs.Prelude.{◌≡◌, count_by};
ghost use Rattle.grid_gen.specs.Generated.{is_put};

use grid_types::{Line, Request};

/// Whether a line is a put.
fn is_put<const K: usize>(line: &Line<K>) -> bool
    ensures { result ≡ is_put line.now }
{
    matches!(line.request, Request::Put(_))
}

/// How many of the lines are puts.
pub fn count_puts<const K: usize>(lines: &[Line<K>]) -> usize
    ensures { result ≡ count_by is_put lines.now }
{
    let mut count = 0;
    for line in lines {
        if is_put(line) {
            count += 1;
        }
    }
    count
}
