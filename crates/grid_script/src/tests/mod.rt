//! Worked scripts, right and wrong, and printed replies.

mod printing;
mod reading;
