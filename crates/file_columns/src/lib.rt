//! The column of shredded Variants in the schema of a file (VariantShredding.md).
//!
//! A schema is a list of elements, which stands for a tree (`specs/Forests.antt`). The column is one child of its root:
//! a group of the metadata and of a node's members, in any order (`specs/Columns.antt`). Its leaves are numbered in the
//! order of `shred_schema`, whatever the order of the members. What a file must have beside is judged by the reader of
//! footers; a list that is no tree is read as far as it goes.
//!
//! | Module | What it holds |
//! |---|---|
//! | `columns` | `FileColumn`, `column`: the column of a name |
//! | `nodes` | nodes, objects and lists |
//! | `members` | the members of a node: a value, a typed value, the metadata |
//! | `names` | names that stand twice |
//! | `children` | the elements inside an element |
//! | `places` | levels, and leaves with their places |
//! | `elements` | what an element says: repetition, physical type, annotation |
//! | `laws` | a list of elements and its trees |
#![tactic(auto)]

mod children;
mod columns;
mod elements;
mod laws;
mod members;
mod names;
mod nodes;
mod places;

pub use columns::{FileColumn, PlaceList, column};
pub use laws::schemas_are_trees;
