//! Reading only what a query needs changes nothing of its answer. The laws stand over the definitions of what is read of
//! a row under a mask, and of what a path and a filter find in a row.
//!
//! | Module | What it holds |
//! |---|---|
//! | `laws` | the laws, each the contract of an empty function |
#![tactic(auto)]

mod laws;

pub use laws::needed_leaves_answer;
