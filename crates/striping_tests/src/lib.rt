//! The calls that split rows into entries, each once on its happy path, since no contract can say that memory was
//! there.
//!
//! | Module | What it calls |
//! |---|---|
//! | `rows` | the entries of rows, and how many there are |
#![tactic(auto)]

#[cfg(test)]
mod rows;
