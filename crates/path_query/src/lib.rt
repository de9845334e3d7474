//! Path queries over JSON values: paths and filters of texts, the matches of a path, the truth of a
//! filter, and the printed line.
//!
//! A row is a JSON value, or absent; an absent row has no match. What a text is read to takes memory, and
//! so do a list of matches and a printed line; `holds` takes none.
//!
//! | Module | What it holds |
//! |---|---|
//! | `texts` | `parse_path`, `parse_filter`: the path and the filter of a text |
//! | `fault` | `TextFault`: why a text is no path or no filter |
//! | `taking` | the parts of a value that one step keeps |
//! | `matching` | `at`: the matches of a path |
//! | `truth` | `holds`: whether a filter holds |
//! | `printing` | `line`: the printed line of a row; `print_row`: the line where the filter holds |
//! | `laws` | a path without a star has one match at most |
#![tactic(auto)]

mod fault;
mod laws;
mod matching;
mod printing;
mod taking;
mod texts;
mod truth;

pub use fault::TextFault;
pub use laws::starless_paths_match_once;
pub use matching::at;
pub use printing::{line, print_row};
pub use query_tree::{Filter, Path, PathList, Query, Relation, Step, Steps, Test};
pub use texts::{parse_filter, parse_path};
pub use truth::holds;
