//! Cells: their indices in the directory, the walk through a box of them, and what they were before a refinement.
#![tactic(auto)]

mod dims;
mod image;
mod laws;
mod walk;

pub use dims::Dims;
pub use image::image_of;
pub use laws::refinement_law;

#[cfg(test)]
mod tests;
