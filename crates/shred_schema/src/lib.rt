//! The columns that shredded Variants have (VariantShredding.md), and the records that stand in them.
//!
//! A column is a tree of nodes. Each node may have a `value`, which holds what doesn't fit the node as Variant bytes,
//! and a typed part, which holds what does: a cell, a record for each field, or a record for each item. Contracts see
//! nodes and records as plain data: `Group` and `Rec` of `specs/`.
//!
//! | Module | What it holds |
//! |---|---|
//! | `nodes` | `Node`, `Typed`, `FieldList`, `Slot`: what a column can hold; `Column` |
//! | `records` | `Record`, `Part`, `RowRecord`: what stands in it for one document |
//! | `masks` | `Mask`: which leaves are read |
//! | `kinds` | `prim_of`, `form_of`: kinds of cells by physical type and annotation |
//! | `leaf_list` | `leaves`: the leaf columns with their levels |
//! | `widths` | `width`: how many leaf columns a node has |
//! | `projecting` | `project`: a node without the leaves that aren't read |
//! | `fitting` | `fit`: the cell of a value that fits; `tree_of`: the value that a cell stands for |
//! | `laws` | what fits comes back, written kinds read back, nodes and projections have leaves |
#![tactic(auto)]

mod fitting;
mod kinds;
mod laws;
mod leaf_list;
mod masks;
mod nodes;
mod projecting;
mod records;
mod widths;

pub use fitting::{fit, tree_of};
pub use kinds::{Note, form_of, prim_of};
pub use laws::{
    cells_are_told, kinds_read_back, nodes_have_leaves, projections_are_narrow,
    records_have_shapes, what_fits_comes_back,
};
pub use leaf_list::{LeafList, leaves};
pub use masks::Mask;
pub use nodes::{Column, FieldList, Node, Slot, Typed};
pub use projecting::project;
pub use records::{Part, Record, RecordList, RowList, RowRecord};
pub use widths::{slot_width, typed_width, width};
