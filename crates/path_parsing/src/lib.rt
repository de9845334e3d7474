//! How paths are written, and their reading.
//!
//! A path is `$` and its steps: `.name`, where a name is a letter or `_`, then letters, digits and `_`;
//! `["name"]`, where the name is a JSON string with no lone surrogate; `[7]`, where an index is 0 or
//! digits that don't begin with 0, nine at most; and `[*]`. There is no space between them. A path has
//! at most 64 steps and 4,096 bytes.
//!
//! | Module | What it holds |
//! |---|---|
//! | `reader` | `parse_path`: a text that is a path; `read_path`: the path at the front of bytes |
//! | `steps` | the steps of a path, by the bytes that they begin with |
//! | `index` | the index of an array's element |
//! | `laws` | what is written is read, and what is read is written; canonical texts are read back |
#![tactic(auto)]

mod index;
mod laws;
mod reader;
mod steps;

pub use laws::{
    canonical_texts_are_paths, paths_are_complete, paths_are_one, paths_are_sound,
    paths_have_canonical_texts,
};
pub use reader::{parse_path, read_path};
