//! The rows of a file.
//!
//! | Module | What it holds |
//! |---|---|
//! | `fetching` | a range of a file, read |
//! | `leaf_chunks` | the chunk of a leaf in its file, read |
//! | `group_chunks` | the chunks of a row group in its file, read |
//! | `group_rows` | `read_group`: the rows of a row group in its file |
//! | `read_stop` | `ReadStop`: why a part of a file wasn't read |
#![tactic(auto)]

mod fetching;
mod group_chunks;
mod group_rows;
mod leaf_chunks;
mod read_stop;

pub use group_rows::read_group;
pub use read_stop::ReadStop;
