//! The elements of a file's schema (parquet.thrift, SchemaElement, LogicalType), read and written.
//!
//! | Module | What it holds |
//! |---|---|
//! | `elements`, `element_writing` | `SchemaElement`: an element of the schema, read; written |
//! | `logical_types`, `logical_writing` | `Logical`: its logical type, read; written |
//! | `members` | what the members of a logical type hold |
//! | `unions` | `UnionSlots`: a struct of which one member counts |
//! | `entries` | what fields hold: small numbers, truth values, names |
//! | `schema_trees` | groups and leaves; `is_one_tree`: whether elements are one tree |
//! | `laws` | what is written reads back |
#![tactic(auto)]

mod element_writing;
mod elements;
mod entries;
mod laws;
mod logical_types;
mod logical_writing;
mod members;
mod schema_trees;
mod unions;

pub use elements::{ElementDraft, ElementList, ElementSlots, SchemaElement};
pub use entries::{Flag, Small, Words};
pub use laws::elements_read_back;
pub use logical_types::{Logical, LogicalDraft};
pub use members::{EmptyDraft, MemberSlots};
pub use schema_trees::{have_lengths, is_one_tree, leaf_count};
pub use unions::{Inside, UnionSlots, put_member};
