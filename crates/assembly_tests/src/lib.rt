//! Rows put together from entries, and the calls on the entries of leaves once, on their happy path: no contract can say
//! that memory was there.
//!
//! | Module | What it holds |
//! |---|---|
//! | `columns` | two columns |
//! | `cursors` | entries that come in pieces, taken in order |
//! | `entry_texts` | entries that are written as text |
//! | `feeding` | entries of a column's leaves, fed |
//! | `row_texts` | rows as text |
//! | `rows` | rows of tables |
#![tactic(auto)]

#[cfg(test)]
mod columns;
#[cfg(test)]
mod cursors;
#[cfg(test)]
mod entry_texts;
#[cfg(test)]
mod feeding;
#[cfg(test)]
mod row_texts;
#[cfg(test)]
mod rows;
