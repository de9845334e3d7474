//! What is written as Variant bytes reads back, and what is read is valid: the laws over the definitions of
//! `variant_read` and `variant_write`, which know nothing of each other.
//!
//! | Module | What it holds |
//! |---|---|
//! | `laws` | the laws, each the contract of an empty function |
#![tactic(auto)]

mod laws;

pub use laws::{
    coded_values_read_back, documents_are_valid, documents_read_back, parts_are_writable,
    values_are_valid,
};
