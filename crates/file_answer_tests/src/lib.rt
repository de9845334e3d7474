//! The calls on one file, each on files whose bytes are worked out by hand.
//!
//! | Module | What it holds |
//! |---|---|
//! | `files` | the files, and what a call leaves of a shelf as text |
//! | `answers` | queries and checks of the files |
//! | `rows` | the rows of a row group of a file |
#![tactic(auto)]

#[cfg(test)]
mod answers;
#[cfg(test)]
mod files;
#[cfg(test)]
mod rows;
