//! The row groups of a file that are closed, as the writer of the file keeps them: their structs for the footer, and
//! the place after their bytes.
//!
//! | Module | What it holds |
//! |---|---|
//! | `group_list` | `ClosedGroups`: the groups, and the end of a file |
#![tactic(auto)]

mod group_list;

pub use group_list::{ClosedGroups, Unclosed};
