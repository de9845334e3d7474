//! What is read of the rows of a file: the laws over the definitions of `record_assembly`, `unshredder` and
//! `group_reading`, and that a row group which is written is read back.
//!
//! | Module | What it holds |
//! |---|---|
//! | `laws` | the laws, each the contract of an empty function |
#![tactic(auto)]

mod laws;

pub use laws::{
    full_masks_read_all, groups_have_their_records, rows_are_seen_as_read, seen_rows_have_records,
    shapes_stay, shown_rows_are_seen_alike, written_groups_read_back,
};
