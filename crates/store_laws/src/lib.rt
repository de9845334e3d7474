//! What is written is what is read: a file that the writer makes of documents is valid and honest, and its rows are the
//! documents. The laws stand over the definitions of the writer and of the reader, which know nothing of each other.
//!
//! | Module | What it holds |
//! |---|---|
//! | `laws` | the laws, each the contract of an empty function |
#![tactic(auto)]

mod laws;

pub use laws::made_files_are_valid;
