//! The row group that a writer of a file has open: the records of its rows, and when it closes.
//!
//! | Module | What it holds |
//! |---|---|
//! | `settings` | `Settings`: what whoever writes a file may choose |
//! | `row_records` | `record_of`: the record of a row |
//! | `gathering` | `OpenGroup`: the rows of the group that is open |
#![tactic(auto)]

mod gathering;
mod row_records;
mod settings;

pub use gathering::OpenGroup;
pub use settings::Settings;
