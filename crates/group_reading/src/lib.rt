//! Row groups, read: from the chunks of the leaves that are read, the rows of the group, or the first rule that it
//! violates, with its place.
//!
//! A group's rules are found in this order: those of the chunks, leaf by leaf; then row by row those of the row.
//! `specs/GroupRows.antt` defines the rows of a group, and `specs/ChunkEntries.antt` what a chunk gives.
//!
//! | Module | What it holds |
//! |---|---|
//! | `group_faults` | `GroupFault`: a rule, and where in a group it is violated |
//! | `chunk_entries` | `read_chunk`: the entries of a chunk, as many as the group has rows |
//! | `leaf_filling` | entries of chunks, fed to the assembler in pieces |
//! | `row_taking` | the next row's record, from the assembler and the chunks of its leaves |
//! | `group_rows` | `GroupRows`: the rows of a group, one by one |
#![tactic(auto)]

mod chunk_entries;
mod group_faults;
mod group_rows;
mod leaf_filling;
mod row_taking;

pub use chunk_entries::read_chunk;
pub use group_faults::{GroupFault, PlaceInGroup};
pub use group_rows::GroupRows;
