//! What crates of tests share: tables of rows, which stand in texts.
//!
//! A row gives something, and says what is wanted of it. Parts of a row have ` | ` between them.
//!
//! | Module | What it holds |
//! |---|---|
//! | `columns` | leaf columns by name, and what they hold as text |
//! | `parts` | bytes, numbers and parts of rows |
//! | `tables` | `check_rows`: what rows give, beside what is wanted |
#![tactic(auto)]

mod columns;
mod parts;
mod tables;

pub use columns::{cell_text, column_of, entries_text};
pub use parts::{bytes_of, hex_text, number_of, split_row};
pub use tables::{Shown, Wrong, check_rows, text_or_rule};
