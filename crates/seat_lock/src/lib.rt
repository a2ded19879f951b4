//! A lock round one value: one turn, one history, and what each seat may know.
//!
//! Threads share a value that changes by single steps, and each has a chair, which goes with it from call to call. The history of the
//! steps is kept by nobody. It lives in what the chairs have seen of it, and the rule of one table says that this is one history.
#![tactic(auto)]

mod act;
pub mod adding;
mod chair;
mod close;
pub mod counter;
mod join;
mod lock;
mod note;
mod open;
mod rule;
mod split;
mod stepped;
#[cfg(test)]
mod tests;
mod turn;
mod view;
mod waiting;

pub use chair::Chair;
pub use close::NotClosed;
pub use lock::SeatLock;
pub use open::NotOpened;
pub use stepped::Stepped;
pub use view::View;
