//! Files that are read group by group: queries over their rows, and whether they violate a rule.
//!
//! | Module | What it holds |
//! |---|---|
//! | `store_file` | `StoreFile`: a file that was begun |
//! | `querying` | `StoreFile::query`: the lines of a query |
//! | `checking` | `StoreFile::check`: whether the file violates a rule |
//! | `row_reading` | `StoreFile::rows`: the rows of a row group |
//! | `file_groups` | one row group of a file: its rows, and the lines of a query over them |
//! | `laws` | that the lines that are seen are the answer over the rows, as the leaves show them that the query needs |
//! | `file_faults` | `Place`, `Violation`, `QueryFault`: what a file violates and where, and why a call was refused |
#![tactic(auto)]

mod checking;
mod file_faults;
mod file_groups;
mod laws;
mod querying;
mod row_reading;
mod store_file;

pub use file_faults::{Place, QueryFault, Violation};
pub use laws::lines_are_answers;
pub use store_file::StoreFile;
