//! The words of a command: options, their values, and operands.
//!
//! | Module | What it holds |
//! |---|---|
//! | `arguments` | the options and the operands that words give, as every command reads them |
//! | `options` | the options that a command knows, and their values |
//! | `numbers` | a number from the value of an option |
//! | `files` | the file of a command, and its column |
//! | `settings` | `WidthWords`, `WritingWords`: how values and files are written |
//! | `widths` | the least widths of offsets and of field ids |
//! | `scan` | `scan_words`: a filter and paths from the words after `scan` |
//! | `variant` | `variant_words`: the widths from the words after `variant` |
//! | `load` | `load_words`: a file and how it is written, from the words after `load` |
//! | `query` | `query_words`: a file, a column, a filter and paths from the words after `query` |
//! | `check` | `check_words`: a file and a column from the words after `check` |
//! | `fault` | `WordFault`: the words aren't the command's |
#![tactic(auto)]

mod arguments;
mod check;
mod fault;
mod files;
mod load;
mod numbers;
mod options;
mod query;
mod scan;
mod settings;
mod variant;
mod widths;

pub use check::{CheckWords, check_words};
pub use fault::WordFault;
pub use load::{LoadWords, load_words};
pub use query::{QueryWords, query_words};
pub use scan::{ScanWords, scan_words};
pub use settings::{WidthWords, WritingWords};
pub use variant::variant_words;
