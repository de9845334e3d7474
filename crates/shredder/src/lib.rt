//! Values shredded into columns (VariantShredding.md, "Value Shredding").
//!
//! What the record of a value is, is defined in `specs/Shredded.antt`.
//!
//! | Module | What it holds |
//! |---|---|
//! | `left` | what stands in `value` |
//! | `records` | `shred`: a record, node by node |
//! | `taking` | the members that fields take, and those that are left over |
#![tactic(auto)]

mod left;
mod records;
mod taking;

pub use records::shred;
