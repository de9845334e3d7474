//! What is done with one file whose name a command gives: a query over its rows, or a check of it.
//!
//! | Module | What it holds |
//! |---|---|
//! | `file_error` | `FileError`: why a call on a file was refused |
//! | `beginning` | the file and the column that a call reads |
//! | `answering` | `answer_query`: a query over the rows of a file, printed |
//! | `judging` | `judge_file`: whether a file violates a rule, and its counts |
//! | `laws` | files that violate nothing are answered, and no call changes a file |
#![tactic(auto)]

mod answering;
mod beginning;
mod file_error;
mod judging;
mod laws;

pub use answering::answer_query;
pub use file_error::FileError;
pub use judging::judge_file;
pub use laws::{files_stay, sound_files_are_answered};
