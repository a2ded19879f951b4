//! A plan as what is published.
ghost use Rattle.std.specs.Prelude.{◌≡◌};

use file_state::Change;
use update_plans::Plan;

/// What a plan does to the file, without what it asks of it.
pub fn change_of<const K: usize>(plan: &Plan<K>) -> Change<K>
    ensures { result ≡ record {
      bucket = plan.now.bucket;
      note = plan.now.note;
      directory = plan.now.directory;
      records = plan.now.records;
    } }
{
    Change {
        bucket: plan.bucket,
        note: plan.note,
        directory: plan.directory,
        records: plan.records,
    }
}
