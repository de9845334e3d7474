//! The calls that write and read row groups, each once on its happy path, since no contract can say that memory was
//! there.
//!
//! The bytes of chunks are worked out by hand: see `given`.
//!
//! | Module | What it holds |
//! |---|---|
//! | `given` | a column, two rows, and the chunks of a group of them |
//! | `writing` | the group is written |
//! | `reading` | the group is read |
#![tactic(auto)]

#[cfg(test)]
mod given;
#[cfg(test)]
mod reading;
#[cfg(test)]
mod writing;
