//! What crates that run the calls on records share: the node of a schema, the tree of a document, and the row record
//! that the one gives by the other.
//!
//! | Module | What it holds |
//! |---|---|
//! | `given` | nodes of schemas, and trees of documents |
//! | `rows` | row records and masks |
#![tactic(auto)]

mod given;
mod rows;

pub use given::{document_tree, schema_node};
pub use rows::{WIDTHS, full_mask, shredded_row};
