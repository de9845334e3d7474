//! Files of shredded Variants, written: one column, row group by row group.
//!
//! `specs/Made.antt` says which bytes the file of some rows has.
//!
//! | Module | What it holds |
//! |---|---|
//! | `file_writer` | `FileWriter`: a file that is written row by row |
//! | `group_closing` | a row that is added, and a group that closes |
//! | `write_error` | `WriteError`: why a call of it is refused; `First`: why it was refused first |
#![tactic(auto)]

mod file_writer;
mod group_closing;
mod write_error;

pub use file_writer::FileWriter;
pub use open_group::Settings;
pub use write_error::{First, WriteError};
