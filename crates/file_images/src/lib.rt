//! What an image of a file stands for, and what a file keeps: laws on whole images, above the crates of its pages.
#![tactic(auto)]

mod crash_laws;
mod kept_laws;
mod laws;
mod leading_laws;
mod meeting_laws;

pub use crash_laws::crash_law;
pub use kept_laws::{
    apart_law, commit_law, doubt_law, half_law, new_file_law, root_law, standing_law,
};
pub use laws::{damage_law, free_page_law, image_law};
pub use leading_laws::{leading_journal_law, leading_page_law, leading_root_law};
pub use meeting_laws::{covering_law, meeting_law, new_disk_law};
