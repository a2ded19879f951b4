//! The data pages of a new file that have something.
ghost use Rattle.std.specs.Prelude.{◌≡◌, ◌≤◌};
ghost use Rattle.grid_types.specs.declared.sizes.TheConstants.{MOST_ATTRIBUTES};
ghost use Rattle.grid_model.specs.Spellings.{bucket_spelling};
ghost use Rattle.file_images.specs.NewFiles.{new_directory, new_bucket};

use arrayvec::ArrayVec;
use bucket_page::Bucket;
use grid_types::{MOST_RECORDS, PAGE_BYTES, Region};

/// Makes `page` that of the directory of a new file: one cell, and bucket 0 in it.
pub fn encode_directory(page: &mut [u8; PAGE_BYTES])
    ensures { page.new ≡ new_directory }
{
    directory_pages::encode(0, &[0], page);
}

/// Makes `page` that of the bucket of a new file: the whole region, and no records.
fn encode_whole<const K: usize>(page: &mut [u8; PAGE_BYTES])
    requires few { K ≤ MOST_ATTRIBUTES }
    ensures { page.new ≡ bucket_spelling (new_bucket K) }
{
    let bucket = Bucket::<K> {
        number: 0,
        turn: 0,
        region: Region::whole(),
        rows: ArrayVec::new(),
    };
    bucket_page::encode(&bucket, MOST_RECORDS as u16, page);
}

/// Makes `page` that of the bucket of a new file with so many attributes.
pub fn encode_bucket(k: u8, page: &mut [u8; PAGE_BYTES])
    requires some { 1 ≤ k }
    requires few { k ≤ MOST_ATTRIBUTES }
    ensures { page.new ≡ bucket_spelling (new_bucket k) }
{
    match k {
        1 => encode_whole::<1>(page),
        2 => encode_whole::<2>(page),
        3 => encode_whole::<3>(page),
        _ => encode_whole::<4>(page),
    }
}
