//! Rows of shredded Variants, made whole (VariantShredding.md, "Reconstructing a Shredded Variant").
//!
//! What a row record means, and the order of the rules, is defined in `specs/`. A row is read under a mask, which says
//! of each leaf column whether it is read. A value or typed part that isn't read counts as missing.
//!
//! | Module | What it holds |
//! |---|---|
//! | `alone` | typed parts beside which no value that is read is there |
//! | `leaves` | which leaves of a node are read |
//! | `merging` | what the value and the typed part of one node mean together |
//! | `records` | records, node by node |
//! | `needing` | whether the names of a row's metadata are needed |
//! | `places` | the places of the fields that are read, in the order of their names |
//! | `readings` | `Reading`: how a node is read under a mask, and what is read inside it |
//! | `rows` | `unshred`: a row; `Reading::new`, `Reading::row`: many of them |
#![tactic(auto)]

mod alone;
mod leaves;
mod merging;
mod needing;
mod places;
mod readings;
mod records;
mod rows;

pub use readings::Reading;
pub use rows::unshred;
