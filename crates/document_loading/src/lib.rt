//! `load`: the documents of an input, written to a new file.
//!
//! | Module | What it holds |
//! |---|---|
//! | `loader` | `Loader`: hands documents to a file writer as its rows |
//! | `loading` | `load`: all documents of an input, from the first byte of the file to its last |
#![tactic(auto)]

mod loader;
mod loading;

pub use loading::load;
