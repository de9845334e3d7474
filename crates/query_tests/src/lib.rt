//! Tests of queries, by the whole program over objects in memory.
//!
//! They stand apart because a crate with tests is proved twice.
//!
//! | Module | What it shows |
//! |---|---|
//! | `words` | the words of a call |
//! | `paths` | what paths find, and which words are no paths |
//! | `filters` | where filters hold, and which texts are no filters |
#![tactic(auto)]

#[cfg(test)]
mod filters;
#[cfg(test)]
mod paths;
#[cfg(test)]
mod words;
