//! What is shredded comes back: the laws over the definitions of `shredder` and `unshredder`, which know nothing of
//! each other.
//!
//! | Module | What it holds |
//! |---|---|
//! | `laws` | the laws, each the contract of an empty function |
#![tactic(auto)]

mod laws;

pub use laws::{
    records_are_of_their_node, rows_are_of_their_schema, rows_come_back,
    what_is_shredded_comes_back,
};
