//! A directory page and bucket pages in memory, for the tests.
ghost use Rattle.std.specs.Prelude.{◌≡◌, ◌<◌, ◌≤◌, [], ◌∷◌};
ghost use Rattle.grid_model.specs.Cells.{dims};
ghost use Rattle.linear_scales.specs.Limited.{scales_of};

use crate::Pinned;
use arrayvec::ArrayVec;
use bucket_page::Bucket;
use disk_trait::{DiskFailed, Steps};
use grid_cells::Dims;
use grid_types::{CellBox, Data, Key, PAGE_BYTES, Query, Record, Region};
use linear_scales::Scales;
use std::alloc::{AllocError, Global};
use std::sync::ledger::Ledger;

/// The pages of a directory part of four cells, and of so many buckets, four at most. It counts its readings.
#[derive(Drop)]
pub struct Pages {
    scales: Scales<2>,
    pub directory: [u8; PAGE_BYTES],
    pub buckets: [[u8; PAGE_BYTES]; 4],
    count: u32,
    pub reads: u32,
    ghost four: { dims (scales_of scales) ≡ 2 ∷ 2 ∷ [] },
    ghost few: { count ≤ 4 },
}

impl Pages {
    /// Pages of a directory with the boundaries 5 and 4, whose four cells name these of so many buckets. No bucket is written.
    pub fn new(alloc: Global, names: &[u32; 4], count: u32) -> Result<Option<Pages>, AllocError>
        requires { count ≤ 4 }
    {
        let mut scales = Scales::new(alloc, 1000)?;
        let _first = scales.refine(0, 5);
        let _second = scales.refine(1, 4);
        let intervals = scales.dims();
        if intervals != [2, 2] {
            return Ok(None);
        }
        let mut directory = [7; PAGE_BYTES];
        directory_pages::encode(0, names, &mut directory);
        Ok(Some(Pages {
            scales,
            directory,
            buckets: [[7; PAGE_BYTES]; 4],
            count,
            reads: 0,
        }))
    }

    /// Writes the page of a bucket with some records, each a key and one byte.
    pub fn put(&mut self, number: u32, lo: [u64; 2], hi: [u64; 2], rows: &[([u64; 2], u8)])
        requires { number < 4 }
    {
        let mut bucket = Bucket {
            number,
            turn: 0,
            region: Region { lo, hi },
            rows: ArrayVec::new(),
        };
        for (numbers, byte) in rows {
            let key = Key { numbers: *numbers };
            if let Some(value) = Data::new(&[*byte]) {
                let _pushed = bucket.rows.try_push(Record { key, value });
            }
        }
        if bucket.rows.len() <= 2 {
            bucket_page::encode(&bucket, 2, &mut self.buckets[number as usize]);
        }
    }
}

impl Pinned<2> for Pages {
    ghost use Rattle.std.specs.Prelude.{Some, take};
    ghost use Rattle.grid_model.specs.Lists.{below};
    ghost use Rattle.linear_scales.specs.Limited.{scales_of};
    ghost use Rattle.query_paths.specs.InMemory.{given_in_memory, page_in_memory};

    ghost shape = { λ p. record { k = 2; capacity = 2; pages = 64; slots = 8; boundaries = 1000; cells = 1000 } };

    ghost scales = { λ p. scales_of p.scales };

    ghost numbers = { λ p. below p.count };

    ghost pages = { λ p. Some (given_in_memory p.directory (take p.count p.buckets)) };

    ghost file_page = { λ p. page_in_memory };

    ghost faults = { λ p. 0 };

    ghost stays = { λ p q. Unit {0} };

    fn capacity(&self) -> u16 {
        2
    }

    fn dims(&self) -> Dims<2> {
        Dims {
            intervals: self.scales.dims(),
        }
    }

    fn cell_of(&self, key: &Key<2>) -> [u32; 2] {
        self.scales.cell_of(key)
    }

    fn cells_of(&self, query: &Query<2>) -> CellBox<2> {
        self.scales.cells_meeting(query)
    }

    fn keys_of(&self, cell: &[u32; 2]) -> Region<2> {
        self.scales.keys_of(cell)
    }

    fn read_part<L: Ledger>(
        &mut self,
        part: u32,
        page: &mut [u8; PAGE_BYTES],
        steps: &mut Steps<L>,
    ) -> Result<u32, DiskFailed> {
        page.copy_from_slice(&self.directory);
        self.reads = self.reads.wrapping_add(1);
        steps.tick();
        Ok(part)
    }

    fn read_bucket<L: Ledger>(
        &mut self,
        number: u32,
        page: &mut [u8; PAGE_BYTES],
        steps: &mut Steps<L>,
    ) -> Result<Option<u32>, DiskFailed> {
        if number >= self.count {
            return Ok(None);
        }
        page.copy_from_slice(&self.buckets[number as usize]);
        self.reads = self.reads.wrapping_add(1);
        steps.tick();
        Ok(Some(number + 100))
    }

    fn read_faults(&self) -> u64 {
        0
    }

    ghost stays_self = { λ p. tt };

    ghost stays_on = { λ p q r a b. tt };
}
