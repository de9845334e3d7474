//! What is made of the rows of a row group: the lines of a query, or the rows themselves.
//!
//! A group's first violation is found before any line of it stands: `specs/Lines.antt`.
//!
//! | Module | What it holds |
//! |---|---|
//! | `row_lines` | `print_rows`: the lines of a query |
//! | `row_trees` | `collect_rows`: the rows |
#![tactic(auto)]

mod row_lines;
mod row_trees;

pub use row_lines::print_rows;
pub use row_trees::{RowTrees, collect_rows};
