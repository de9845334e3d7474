//! Calls of the whole program over objects in memory, for the crates of tests.
//!
//! | Module | What it holds |
//! |---|---|
//! | `calls` | `Outcome`: what a call answered and what its devices hold; `call`, `run`; `call_full`, `call_full_on`: with an output without memory |
//! | `checks` | `check`: what a call prints, however its input comes; tables of rows |
#![tactic(auto)]

mod calls;
mod checks;

pub use calls::{Outcome, call, call_full, call_full_on, call_on, repeated, run, words_of};
pub use checks::{Wrong, check, check_fault, check_piece, check_rows, split_row};
