//! A page that is read and judged at once.
ghost use Rattle.std.specs.Prelude.{◌<◌, ◌≤◌, ◌*◌};
ghost use Rattle.grid_types.specs.declared.sizes.TheConstants.{MOST_ATTRIBUTES};
ghost use Rattle.grid_model.specs.Cells.{cells};
ghost use Rattle.query_paths.specs.Pinned.{MakesSteps};
ghost use Rattle.query_paths.specs.Calls.{place, LeavesPlace};
ghost use Rattle.query_paths.specs.Readings.{IsPartRead, IsBucketRead};

use crate::Pinned;
use bucket_page::{Head, judge};
use directory_pages::is_directory_page;
use disk_trait::Steps;
use grid_types::{PAGE_BYTES, Refusal};
use std::sync::ledger::Ledger;

/// Reads the page of a directory part, and judges it: it has to be spelled with as many cells as the part has. Answers
/// which page of the file it is.
pub fn read_directory<const K: usize, Q: Pinned<K>, L: Ledger>(
    pinned: &mut Q,
    part: u32,
    page: &mut [u8; PAGE_BYTES],
    steps: &mut Steps<L>,
) -> Result<u32, Refusal>
    requires inside { 1000 * part < cells (Q.scales pinned.old) }
    requires few { K ≤ MOST_ATTRIBUTES }
    ensures read { IsPartRead (place Q.Pinned pinned.old) (Q.faults pinned.old)
        (Q.faults pinned.new) part page.new result }
    ensures later { Q.faults pinned.old ≤ Q.faults pinned.new }
    ensures reads { MakesSteps 1 steps.old steps.new result }
    ensures same { LeavesPlace Q.Pinned pinned.old pinned.new }
{
    let count = (pinned.dims().cells() - 1000 * part).min(1000);
    let Ok(at) = pinned.read_part(part, page, steps) else {
        return Err(Refusal::ReadFault);
    };
    if is_directory_page(page, part, count) {
        Ok(at)
    } else {
        Err(Refusal::Damaged { page: at })
    }
}

/// Reads the page of a bucket, and judges it: it has to be spelled with that number. Answers which page of the file it is,
/// and its head. Where no bucket has the number, the page of the directory that names it is damaged, and nothing is read.
pub fn read_spelled<const K: usize, Q: Pinned<K>, L: Ledger>(
    pinned: &mut Q,
    number: u32,
    directory: u32,
    page: &mut [u8; PAGE_BYTES],
    steps: &mut Steps<L>,
) -> Result<(u32, Head<K>), Refusal>
    requires { K ≤ MOST_ATTRIBUTES }
    ensures read { IsBucketRead K (place Q.Pinned pinned.old) (Q.faults pinned.old)
        (Q.faults pinned.new) number directory page.old page.new result }
    ensures later { Q.faults pinned.old ≤ Q.faults pinned.new }
    ensures reads { MakesSteps 1 steps.old steps.new result }
    ensures same { LeavesPlace Q.Pinned pinned.old pinned.new }
{
    let capacity = pinned.capacity();
    let Ok(read) = pinned.read_bucket(number, page, steps) else {
        return Err(Refusal::ReadFault);
    };
    let Some(at) = read else {
        return Err(Refusal::Damaged { page: directory });
    };
    match judge(page, capacity) {
        Some(head) if head.number == number => Ok((at, head)),
        _ => Err(Refusal::Damaged { page: at }),
    }
}
