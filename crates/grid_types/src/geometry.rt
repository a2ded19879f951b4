//! Where the pages of a file are.
ghost use Rattle.std.specs.Prelude.{◌≡◌, ◌<◌, ◌≤◌, ◌+◌, ◌*◌, ◌↔◌, IsTrue, IsSome, IfSome};
ghost use Rattle.grid_types.specs.FilePages.{PagesAreApart};
ghost use Rattle.grid_types.specs.Shapes.{is_shape, area_pages, file_pages, table_page, gate_page, slot_page, data_page};
ghost use Rattle.grid_types.specs.Halves.{half_number};

use crate::{Half, Shape};

/// Where the pages of a file of a shape are. All page numbers are of the file.
#[derive(Clone, Copy, Debug, PartialEq, Eq)]
pub struct Geometry {
    pub shape: Shape,
    pub ghost lawful: { IsTrue (is_shape shape) },
}

impl Geometry {
    /// The geometry of a shape, where that is lawful.
    pub fn new(shape: Shape) -> Option<Geometry>
        ensures found { IsSome result ↔ IsTrue (is_shape shape) }
        ensures value { IfSome result (λ l. l.shape ≡ shape) }
    {
        if shape.lawful() {
            Some(Geometry { shape })
        } else {
            None
        }
    }

    /// The gate page of a half of the journal.
    pub fn gate_page(&self, half: Half) -> u32
        ensures value { result ≡ gate_page self.now.shape (half_number half) }
        ensures inside { result < file_pages self.now.shape }
        ensures small { result ≤ 10000 }
    {
        let pages = self.area_pages();
        match half {
            Half::First => 2 + 2 * pages,
            Half::Second => 3 + 2 * pages + self.shape.slots,
        }
    }

    /// The page of slot `i` of a half of the journal.
    pub fn slot_page(&self, half: Half, i: u32) -> u32
        requires { i < self.now.shape.slots }
        ensures value { result ≡ slot_page self.now.shape (half_number half) i }
        ensures inside { result < file_pages self.now.shape }
    {
        self.gate_page(half) + 1 + i
    }

    /// How many pages a table area has.
    pub fn area_pages(&self) -> u32
        ensures value { result ≡ area_pages self.now.shape }
        ensures small { result ≤ 75 }
    {
        9 + (self.shape.pages + 999) / 1000
    }

    /// Page `i` of a table area, 0 or 1.
    pub fn table_page(&self, area: u8, i: u32) -> u32
        requires two { area < 2 }
        requires inside { i < area_pages self.now.shape }
        ensures value { result ≡ table_page self.now.shape area i }
        ensures inside { result < file_pages self.now.shape }
    {
        let pages = self.area_pages();
        if area == 0 { 2 + i } else { 2 + pages + i }
    }

    /// The file's page of data page `i`.
    pub fn data_page(&self, i: u32) -> u32
        requires { i < self.now.shape.pages }
        ensures value { result ≡ data_page self.now.shape i }
        ensures inside { result < file_pages self.now.shape }
    {
        4 + 2 * self.area_pages() + 2 * self.shape.slots + i
    }
}

/// The law of a file's pages: pages that are for different things have different numbers.
pub fn page_number_law()
    ensures { PagesAreApart }
{}
