//! The words of the project: keys, data, records, regions, queries, updates and their notes, requests, replies and
//! refusals, and the shape of a file.
#![tactic(auto)]

mod answer;
mod cell_box;
mod data;
mod geometry;
mod half;
mod key;
mod layout_change;
mod owner;
mod page_list;
mod query;
mod refusal;
mod region;
mod request;
mod rows;
mod shape;
mod sizes;
mod touching;
mod update;

pub use answer::Answer;
pub use cell_box::CellBox;
pub use data::Data;
pub use geometry::{Geometry, page_number_law};
pub use half::Half;
pub use key::{Key, key_order};
pub use layout_change::{Cut, LayoutChange, LoggedUpdate};
pub use owner::Owner;
pub use page_list::PageList;
pub use query::{Query, Side};
pub use refusal::Refusal;
pub use region::Region;
pub use request::{Line, Reply, Request};
pub use rows::Rows;
pub use shape::{Shape, Stat};
pub use sizes::{
    BODY_BYTES, DATA_AT, DATA_ROOM, FEWEST_PAGES, HEAD_BYTES, KEY_BYTES, LEAST_RECORDS,
    LONGEST_DATA, MOST_ATTRIBUTES, MOST_BOUNDARIES, MOST_CELLS, MOST_CLIENTS, MOST_PAGES,
    MOST_RECORDS, MOST_SLOTS, MOST_UPDATES, NUMBERS_ON_PAGE, PAGE_BYTES, RECORD_BYTES,
    UPDATE_BYTES, WORDS_ON_PAGE,
};
pub use update::{Entry, Record, Update};
