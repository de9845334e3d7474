//! Which leaf columns a query needs.
//!
//! `specs/Needs.antt` defines them, by the steps of the query's paths and the schema of the column.
//!
//! | Module | What it holds |
//! |---|---|
//! | `marking` | leaves of a mask, marked |
//! | `needing` | `needs`: the mask of the leaves that a query needs |
//! | `laws` | a query's mask has a truth value for each leaf, and reads the leaves that it needs |
#![tactic(auto)]

mod laws;
mod marking;
mod needing;

pub use laws::needs_are_read;
pub use needing::needs;
