//! What the words of a command ask for: the words after a command's name, to the values that the command takes.
//!
//! What is wrong with words is found in one order: words that aren't the command's, the schema, the filter, the
//! paths in their order, and a path that is given twice.
//!
//! | Module | What it holds |
//! |---|---|
//! | `fault` | `BadWords`: what is wrong with words; `WordsFault` |
//! | `query_texts` | the query of a filter's text and paths' texts |
//! | `scan` | `asked_scan`: the query that the words after `scan` ask for |
//! | `variant` | `asked_variant`: the widths that the words after `variant` ask for |
//! | `load` | `asked_load`: the file and how it is written that the words after `load` ask for |
//! | `query` | `asked_query`: the file, the column and the query that the words after `query` ask for |
//! | `check` | `asked_check`: the file and the column that the words after `check` ask for |
//! | `laws` | words that ask for something aren't wrong, and ask for one thing |
#![tactic(auto)]

mod check;
mod fault;
mod laws;
mod load;
mod query;
mod query_texts;
mod scan;
mod variant;

pub use check::{CheckCommand, asked_check};
pub use command_words::WidthWords;
pub use fault::{BadWords, WordsFault};
pub use laws::{asked_words_are_right, words_ask_once};
pub use load::{LoadCommand, asked_load};
pub use query::{QueryCommand, asked_query};
pub use scan::asked_scan;
pub use variant::asked_variant;
