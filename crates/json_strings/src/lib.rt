//! The strings of JSON texts (RFC 8259, section 7): how they are written, what text they stand for, and
//! their reading.
//!
//! A string is a list of pieces: a byte that stands for itself, an escape of two characters, or `\u`
//! with four hexadecimal digits of either case. Its text is UTF-8; bytes that aren't make no string. A
//! `\u` surrogate that isn't half of a pair adds nothing to the text, and is told beside it (section
//! 8.2 leaves open what such a string means).
//!
//! | Module | What it holds |
//! |---|---|
//! | `reader` | `read_quoted`, `read_text`: the rest of a string; `read_string`: a string at a place |
//! | `content` | what was read of a string that has escapes |
//! | `escapes` | escapes, after their backslash |
//! | `runs` | the leading bytes that stand for themselves |
//! | `ascii_runs` | those of them that are ASCII, sixteen at a time |
//! | `laws` | what is written is read, and what is read is written; strings in UTF-8 bytes mean UTF-8 |
#![tactic(auto)]

mod ascii_runs;
mod content;
mod escapes;
mod laws;
mod reader;
mod runs;

pub use laws::{
    strings_are_complete, strings_are_one, strings_are_sound, strings_in_utf8_mean_utf8,
    utf8_is_judged_once,
};
pub use reader::{Quoted, StringFault, read_quoted, read_string, read_text};
