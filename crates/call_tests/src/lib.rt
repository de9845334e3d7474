//! Each public call of the libraries once, on its happy path: no contract can say that memory was there.
//!
//! They stand apart because a crate with tests is proved twice.
//!
//! | Module | What it calls |
//! |---|---|
//! | `values` | texts, bytes, trees, strings and numbers |
//! | `inputs` | sources, sinks, and the lines of an input |
//! | `queries` | lines to trees, paths and their matches, filters |
#![tactic(auto)]

#[cfg(test)]
mod inputs;
#[cfg(test)]
mod queries;
#[cfg(test)]
mod values;
