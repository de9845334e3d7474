//! Entries of leaf columns taken item by item, as a record is put together from them (the parquet-format README,
//! "Nested Encoding").
//!
//! | Module | What it holds |
//! |---|---|
//! | `cell_kind` | which cells a kind of values has |
//! | `entry_cursor` | `Cursor`: the entries that are left in a leaf |
//! | `items` | what the first item's entries are, in a slice |
//! | `leaf_range` | parts that are absent, passed in all their leaves |
//! | `leaf_value` | values of one leaf, taken |
//! | `row_ends` | where rows end |
#![tactic(auto)]

mod cell_kind;
mod entry_cursor;
mod items;
mod leaf_range;
mod leaf_value;
mod row_ends;

pub use entry_cursor::Cursor;
pub use leaf_range::take_nulls;
pub use leaf_value::{take_cell, take_no_value, take_number, take_value};
pub use row_ends::are_whole;
