//! The schema elements that are written for a column of shredded Variants (VariantShredding.md), and the schema paths
//! of its leaves.
//!
//! The schema has one column: the root `schema`, the column, annotated as VARIANT, its metadata, and the members of its
//! node. A value and a typed value of a kind are leaves, with their annotations as logical and as converted types; the
//! typed value of an object has a required group for each field, that of a list is annotated as LIST. What is written
//! is read by `file_columns::column` as this column (`laws`).
//!
//! | Module | What it holds |
//! |---|---|
//! | `elements` | one element: a leaf, a group, the root, the column |
//! | `schemas` | `schema_elements`: the elements of a column |
//! | `paths` | `leaf_paths`: the schema path of each leaf |
//! | `laws` | what is written reads back, and is what a footer may have |
#![tactic(auto)]

mod elements;
mod laws;
mod paths;
mod schemas;

pub use laws::{paths_are_ways, written_columns_read_back, written_schemas_fit};
pub use paths::{PathList, SchemaPath, leaf_paths};
pub use schemas::schema_elements;
