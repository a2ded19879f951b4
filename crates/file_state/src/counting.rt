//! What is counted in a file.
ghost use Rattle.std.specs.Prelude.{◌≡◌, ◌<◌, ◌≤◌, ◌+◌, ◌*◌, ◌^◌};
ghost use Rattle.grid_types.specs.declared.layout_change.LayoutChange.{LayoutChange};
ghost use Rattle.file_books.specs.Effects.{records_after, buckets_after};

use file_books::RecordChange;
use grid_types::LayoutChange;

/// How many records there are after a change, where there is room for so many.
pub(crate) fn records_after(most: u64, records: u64, change: RecordChange) -> u64
    ensures { result ≡ records_after most records change }
{
    match change {
        RecordChange::More => if records < most { records + 1 } else { most },
        RecordChange::Same => records.min(most),
        RecordChange::Fewer => records.saturating_sub(1).min(most),
    }
}

/// How many buckets there are after a change.
pub(crate) fn buckets_after(buckets: u32, note: LayoutChange) -> u32
    requires few { buckets + 1 < 2 ^ 32 }
    requires some { 1 ≤ buckets }
    ensures { result ≡ buckets_after buckets note }
{
    match note {
        LayoutChange::Plain => buckets,
        LayoutChange::Cut { .. } => buckets + 1,
        LayoutChange::Merge { .. } => buckets - 1,
    }
}
