//! What the writer of a file needs to know of the rows that it stripes: the laws over the definitions of `shredder`,
//! `level_striping` and `chunks`, which know nothing of each other.
//!
//! | Module | What it holds |
//! |---|---|
//! | `laws` | the laws, each the contract of an empty function |
#![tactic(auto)]

mod laws;

pub use laws::{
    chunks_are_short, entries_are_of_their_leaves, entries_are_within_their_texts,
    records_are_within_their_texts, records_fit_their_leaves, shredded_rows_are_written,
};
