//! Words of the commands over files, as tables: words, and what they give.
//!
//! | Module | What it shows |
//! |---|---|
//! | `files` | the words of `load`, `query` and `check` |
//! | `asked` | what they ask for |
#![tactic(auto)]

#[cfg(test)]
mod asked;
#[cfg(test)]
mod files;
