//! Calls of the whole program on a shelf of one file, `f`, for the crates of tests.
//!
//! | Module | What it holds |
//! |---|---|
//! | `calls` | a call with the words of a row, and what it answers as text |
//! | `files` | the file f: put on a shelf, loaded, and taken from a shelf |
#![tactic(auto)]

mod calls;
mod files;

pub use calls::{answer_text, called, lines_of, loaded, outcome_text, push_answer};
pub use files::{file_of, load_file, load_shelf, shelf_of, without_footer};
