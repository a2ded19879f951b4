//! The table area of the root of a new file.
ghost use Rattle.std.specs.Prelude.{◌≡◌, ◌≤◌, ◌-◌, ◌*◌, ◌∷◌, take, drop, replicate};
ghost use Rattle.grid_types.specs.declared.sizes.TheConstants.{WORDS_ON_PAGE};
ghost use Rattle.grid_model.specs.Images.{area_spelling};
ghost use Rattle.grid_model.specs.Lawful.{nowhere};
ghost use Rattle.grid_model.specs.Spellings.{bucket_table_spelling};
ghost use Rattle.file_images.specs.NewFiles.{new_area};
ghost use Rattle.file_making.specs.Contents.{first_entry};

use grid_types::{Geometry, PAGE_BYTES, WORDS_ON_PAGE};
use root_pages::{encode_list, encode_scale, encode_table};

/// What stands where no bucket has a number.
const NOWHERE: u32 = u32::MAX;

/// The first entry on the page of the bucket table that begins with this number.
#[tactic(auto, unfolding(grid_model::specs::Lawful::nowhere))]
fn first_entry(from: usize) -> u32
    ensures { result ≡ first_entry from }
{
    if from == 0 { 1 } else { NOWHERE }
}

/// The entries on the page of the bucket table that begins with this number, where the table doesn't end on it.
#[tactic(auto, unfolding(grid_model::specs::Lawful::nowhere))]
fn entries_from(from: usize) -> [u32; WORDS_ON_PAGE]
    ensures { result ≡ first_entry from ∷ replicate (WORDS_ON_PAGE - 1) nowhere }
{
    let mut entries = [NOWHERE; WORDS_ON_PAGE];
    entries[0] = first_entry(from);
    entries
}

/// Makes `page` the page of that index with its part of the bucket table: bucket 0 is on data page 1, and there is no
/// other bucket.
fn encode_buckets(pages: u32, index: u32, page: &mut [u8; PAGE_BYTES])
    requires some { 1 ≤ pages }
    requires behind { 9 ≤ index }
    ensures { page.new ≡ bucket_table_spelling 0 index (take WORDS_ON_PAGE
        (drop (WORDS_ON_PAGE * (index - 9)) (1 ∷ replicate (pages - 1) nowhere))) }
{
    let from = WORDS_ON_PAGE * (index as usize - 9);
    let count = (pages as usize).saturating_sub(from).min(WORDS_ON_PAGE);
    encode_table(0, index, &entries_from(from)[..count], page);
}

/// Makes `page` the page of that index in the table area of a new file's root.
pub fn encode_area(geometry: &Geometry, index: u32, page: &mut [u8; PAGE_BYTES])
    ensures { page.new ≡ area_spelling 0 (new_area geometry.now.shape.k geometry.now.shape) index }
{
    if index < 8 {
        encode_scale(0, index, &[], page);
    } else if index == 8 {
        encode_list(0, index, &[0], page);
    } else {
        encode_buckets(geometry.shape.pages, index, page);
    }
}
