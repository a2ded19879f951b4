//! The parts of the directory.
ghost use Rattle.std.specs.Prelude.{◌≡◌, ◌/◌, ◌%◌};

/// The part that has the cell of this index, and the cell's index in the part.
pub fn part_of(index: u32) -> (u32, u32)
    ensures { result ≡ (index / 1000, index % 1000) }
{
    (index / 1000, index % 1000)
}
