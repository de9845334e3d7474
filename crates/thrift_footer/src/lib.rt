//! The metadata of files: files that are opened, and the column of a name in them.
//!
//! | Module | What it holds |
//! |---|---|
//! | `opening` | `open_file`; `Opened`, `OpenFault` |
//! | `file_ends` | how long a footer is, by the ends of its file |
//! | `meta_column` | `column`: the column of a name |
//!
//! The structs of a footer stand in `footer_structs`, `schema_elements` and `thrift_structs`, and are passed on.
#![tactic(auto)]

mod file_ends;
mod meta_column;
mod opening;

pub use file_columns::{FileColumn, PlaceList};
pub use footer_structs::{
    ChunkList, FileMeta, GroupList, GroupMeta, append_group, footer_len, read_footer, write_footer,
};
pub use meta_column::column;
pub use opening::{OpenFault, Opened, open_file};
pub use schema_elements::{ElementList, Logical, SchemaElement};
pub use thrift_structs::{ChunkMeta, ColumnMeta, Stats};
