//! Header pages and the pages of table areas: what a file says of its shape and of its roots, as bytes.
#![tactic(auto)]

mod area_reading;
mod area_writing;
mod field_reading;
mod header_writing;
mod lawful;
mod laws;
mod root_header;
mod shape_reading;

pub use area_reading::{boundary_at, entry_at, is_list_page, is_scale_page, is_table_page};
pub use area_writing::{encode_list, encode_scale, encode_table};
pub use field_reading::{decode_fields, is_open, root_number};
pub use header_writing::{encode_fields, encode_header};
pub use laws::spelling_law;
pub use root_header::RootHeader;
pub use shape_reading::decode_shape;

#[cfg(test)]
mod tests;
