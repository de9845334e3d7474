//! The words of parsing: what the readers of every small language do with the bytes at hand.
//!
//! A reader takes bytes and gives what it read and the bytes after that. Its contract says that it reads
//! what a function on lists reads (`specs/Parse.antt`), by one of the outcome words of
//! `vs_bytes`. A reader of a part has no name for its own fault: it answers `Refused<Absent>`, so that `?`
//! hands its answer on in every language.
//!
//! | Module | What it holds |
//! |---|---|
//! | `after` | the bytes after one byte, after a word |
//! | `spaces` | the bytes after a gap of spaces |
//! | `names` | names that may stand without quotes |
//! | `digits` | digits, whole numbers, and the bytes of numbers |
//! | `laws` | a front is the longest one; which digits are a whole number |
#![tactic(auto)]

mod after;
mod digits;
mod laws;
mod names;
mod spaces;

pub use after::{after_byte, after_bytes, after_word};
pub use digits::{is_numeric, is_whole, split_digits, split_number};
pub use laws::{fronts_are_longest, gaps_are_spaces, whole_numbers, whole_words_end};
pub use names::{is_name, is_name_byte, is_name_start, split_name, starts_name};
pub use spaces::past_spaces;
