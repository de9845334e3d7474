//! The calls of shelves, each once on its happy path, and what their refusals leave.
//!
//! They stand apart because a crate with tests is proved twice.
//!
//! | Module | What it calls |
//! |---|---|
//! | `memory` | a shelf in memory, with calls that fail by plan |
//! | `folder` | the files of a folder |
#![tactic(auto)]

#[cfg(test)]
mod folder;
#[cfg(test)]
mod memory;
