//! The lines of an input, read as they come and never held whole.
//!
//! | Module | What it holds |
//! |---|---|
//! | `answer` | what the reader of lines answers: `Next`, `LineFault`, and what it repeats |
//! | `line_reader` | `Lines`: gives the lines of a source in turn |
//! | `read_buffer` | the bytes that were read and not yet given |
#![tactic(auto)]

mod answer;
mod line_reader;
mod read_buffer;

pub use answer::{LineFault, Next};
pub use line_reader::{LINE_LIMIT, Lines};
