//! Footers: bytes with what they mean or the first rule that they violate, and a footer that is written. Each call
//! stands once on its happy path, since no contract can say that memory was there.
//!
//! | Module | What it calls |
//! |---|---|
//! | `columns` | the column of a name |
//! | `elements` | schema elements and logical types |
//! | `footers` | whole footers |
//! | `opening` | files that are opened |
//! | `written` | footers that are written |
#![tactic(auto)]

#[cfg(test)]
mod columns;
#[cfg(test)]
mod elements;
#[cfg(test)]
mod footers;
#[cfg(test)]
mod opening;
#[cfg(test)]
mod written;
