//! Structs in the Thrift compact protocol that hold lists and bytes of their own, read in one pass, and written; and
//! the structs of a column chunk in parquet.thrift.
//!
//! A struct is read into the slots of its known fields, by a table that its `Draft` states. What a field holds is an
//! `Entry`. Nothing is allocated but what is read, and nothing by a size that the bytes only claim.
//!
//! A struct is written by its `StructCode`, which states its fields. What is written reads back (`laws`).
//!
//! | Module | What it holds |
//! |---|---|
//! | `drafts` | `Draft`: a struct by the slots of its fields |
//! | `entries` | `Entry`: what a field holds; numbers, binaries, structs |
//! | `lists` | `ListOf`: lists of entries |
//! | `codes` | `StructCode`, `ElementCode`: how structs and lists are written |
//! | `column_chunks`, `chunk_writing` | `ChunkMeta`, `ColumnMeta`, `Stats`, read; written |
//! | `chunk_ranges` | `chunk_range`: where the bytes of a column chunk stand |
//! | `laws` | what is written reads back |
#![tactic(auto)]

mod chunk_ranges;
mod chunk_writing;
mod codes;
mod column_chunks;
mod drafts;
mod entries;
mod laws;
mod lists;

pub use chunk_ranges::chunk_range;
pub use codes::{ElementCode, StructCode, write_struct};
pub use column_chunks::{ChunkDraft, ChunkMeta, ColumnDraft, ColumnMeta, Stats, StatsDraft};
pub use drafts::{Draft, read_struct};
pub use entries::{Entry, StructOf, put};
pub use laws::column_chunks_read_back;
pub use lists::ListOf;
