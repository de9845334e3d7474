//! Records read back from their entries, one list of entries a leaf (the parquet-format README, "Nested Encoding").
//!
//! `specs/Reading.antt` defines what is read from lists of entries under a mask. The laws say that this is the inverse
//! of striping: what is read is what the mask leaves of a record that has these entries, and nothing is read where no
//! record has them.
//!
//! | Module | What it holds |
//! |---|---|
//! | `laws` | the laws, each the contract of an empty function |
#![tactic(auto)]

mod laws;

pub use laws::{columns_are_read, equal_entries_equal_rows, records_are_read, rows_are_read};
