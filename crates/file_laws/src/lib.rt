//! What is read of files that were written: a file that was loaded is begun, checked and queried as its documents say.
//! The laws join what is known of files as bytes to what the calls on them see, and these to the calls on documents.
//!
//! | Module | What it holds |
//! |---|---|
//! | `laws` | the laws, each the contract of an empty function |
#![tactic(auto)]

mod laws;

pub use laws::{
    asked_loads_can_be_written, bytes_decide_what_is_seen, loaded_documents_are_answered,
    made_files_are_seen, valid_files_are_seen, violations_are_one,
};
