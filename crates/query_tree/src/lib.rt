//! What a path query asks: paths of steps, filters over them, and the canonical text of a path.
//!
//! | Module | What it holds |
//! |---|---|
//! | `step` | `Step`: a field, an index, or a star |
//! | `path` | `Path`: steps and their canonical text |
//! | `filter` | `Filter`, `Test`, `Relation` |
//! | `query` | `Query`: a filter and the paths to print |
#![tactic(auto)]

mod filter;
mod path;
mod query;
mod step;

pub use filter::{Filter, Relation, Test};
pub use path::{Path, Steps};
pub use query::{PathList, Query};
pub use step::Step;
