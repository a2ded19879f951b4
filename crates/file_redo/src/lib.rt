//! A file that is being opened: what the updates of its journal that were redone have made of it, and where it stands when
//! all are. Laws alone, no code.
#![tactic(auto)]

mod laws;

pub use laws::{
    redo_claim_law, redo_law, redo_page_law, redo_synced_law, redo_update_law, reopened_law,
};
