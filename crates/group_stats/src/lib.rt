//! Statistics of column chunks (parquet.thrift, Statistics).
//!
//! Which statistics are accurate is defined in `specs/Accurate.antt`. Statistics that are built count the entries without
//! a value; they have no bounds.
//!
//! | Module | What it holds |
//! |---|---|
//! | `building` | `build`: the statistics of a chunk's entries |
#![tactic(auto)]

mod building;

pub use building::build;
pub use thrift_structs::Stats;
