//! Files that are written, with a shelf in memory.
//!
//! They stand apart because a crate with tests is proved twice.
//!
//! | Module | What it shows |
//! |---|---|
//! | `files` | an empty file byte by byte, groups that close, and what refusals leave |
#![tactic(auto)]

#[cfg(test)]
mod files;
