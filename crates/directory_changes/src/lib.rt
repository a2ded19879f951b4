//! What a change does to the directory, and the directory parts that it renews.
#![tactic(auto)]

mod boxes;
mod change;
mod counting;
mod laws;
mod making;
mod parts;

pub use change::DirectoryChange;
pub use counting::{count_changed_parts, need};
pub use laws::directory_law;
pub use making::{change_of_cut, change_of_merge};
pub use parts::{is_changed, next_changed_part, parts_after};

#[cfg(test)]
mod tests;
