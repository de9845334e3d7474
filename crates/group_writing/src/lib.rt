//! Row groups, written: from the rows of a column, a chunk for each leaf column, and the structs of these chunks
//! (parquet.thrift, ColumnChunk).
//!
//! `specs/GroupChunks.antt` defines both.
//!
//! | Module | What it holds |
//! |---|---|
//! | `chunk_metas` | the struct of a chunk |
//! | `group_chunks` | `write_group`: the chunks of a row group, with their structs |
#![tactic(auto)]

mod chunk_metas;
mod group_chunks;

pub use chunk_metas::SchemaPath;
pub use group_chunks::{WrittenGroup, write_group};
