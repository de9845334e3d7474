//! Filters: how they are written, what they mean, and their reading.
//!
//! A filter is made of terms, with `not`, `and`, `or` and brackets; `not` binds more closely than `and`,
//! and `and` than `or`. A term is a path and what is asked of its matches: `exists`, `missing`, or a
//! relation and a literal of JSON. Spaces may stand between these parts, and nowhere else.
//!
//! A text is read in one pass, call by call as the functions on lists of `specs/Reading.antt` read it.
//! Whether the literals suit their relations is asked of the finished filter.
//!
//! | Module | What it holds |
//! |---|---|
//! | `parser` | `parse_filter`: the filter of a text |
//! | `filters` | `not`, `and`, `or` and brackets |
//! | `term` | a path and its test; relations |
//! | `literals` | null, truth values, numbers and strings |
//! | `parsed` | a part of a filter, with its count of terms |
//! | `suiting` | `is_suited`: whether the literals suit their relations |
//! | `laws` | what is written is read, what is read is written, and a text is one filter at most |
#![tactic(auto)]

mod filters;
mod laws;
mod literals;
mod parsed;
mod parser;
mod suiting;
mod term;

pub use laws::{filters_are_one, filters_are_read, filters_are_sound};
pub use parser::parse_filter;
pub use suiting::is_suited;
