//! Rows put together from the entries of their leaf columns (the parquet-format README, "Nested Encoding").
//!
//! The entries come leaf by leaf, in pieces. Only the leaves that a mask reads have any; the rows are what the mask
//! leaves of the row records of a column that have these entries, and no row record is given that has others.
//!
//! | Module | What it holds |
//! |---|---|
//! | `assembler` | `Assembler`: entries in, rows out |
//! | `leaf_places` | where the leaves that are read stand among one another; `reads_any`: whether there are any |
//! | `row_taking` | a row, taken from the entries of its leaves |
//! | `laws` | what is read under a mask is read of the projected column |
#![tactic(auto)]

mod assembler;
mod laws;
mod leaf_places;
mod row_taking;

pub use assembler::Assembler;
pub use laws::{projected_columns_are_read, rows_go_on};
pub use leaf_places::reads_any;
