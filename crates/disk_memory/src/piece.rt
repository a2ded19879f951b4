//! How many bytes go in one piece.
ghost use Rattle.std.specs.Prelude.{◌≡◌};
ghost use Rattle.disk_memory.specs.Pieces.{piece_of};

/// As many of `count` bytes as a limit lets through, where 0 is no limit.
pub fn piece_of(limit: usize, count: usize) -> usize
    ensures { result ≡ piece_of limit count }
{
    if limit == 0 { count } else { count.min(limit) }
}
