//! Striping: records of a column become one list of entries a leaf, each with its repetition and definition level (the
//! parquet-format README, "Nested Encoding").
//!
//! `specs/Entries.antt` defines the entries of a record. Leaf 0 of a column is the metadata, and its node begins at
//! leaf 1. One walk over a record gives the entries of all leaves.
//!
//! | Module | What it holds |
//! |---|---|
//! | `levels` | `Levels`: where a record stands |
//! | `putting` | the entries of one leaf, and entries without value in many |
//! | `values` | values and absent parts |
//! | `striping` | `stripe`: the entries of rows in all leaves |
//! | `counting` | `entries_of_row`: how many entries a row has in all leaves together |
//! | `laws` | how many entries there are beside the texts, the contract of an empty function |
#![tactic(auto)]

mod counting;
mod laws;
mod levels;
mod putting;
mod striping;
mod values;

pub use counting::entries_of_row;
pub use laws::entries_are_few;
pub use striping::{Stripes, stripe};
