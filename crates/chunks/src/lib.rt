//! Column chunks: the entries of their pages (README.md of parquet-format, "Column chunks").
//!
//! What a chunk holds, and the order of its rules, is defined in `specs/Turns.antt`; where the writer cuts its pages,
//! in `specs/PageCuts.antt`.
//!
//! | Module | What it holds |
//! |---|---|
//! | `page_walk` | the pages in the bytes of a chunk |
//! | `chunk_entries` | `ChunkEntries`: the entries of a chunk, in pieces |
//! | `chunk_reader` | `ChunkReader`: the entries of a chunk, page by page |
//! | `page_cuts` | how many entries the next page has that is written |
//! | `chunk_writing` | `write_chunk`: a chunk of entries |
//! | `laws` | what is written reads back |
#![tactic(auto)]

mod chunk_entries;
mod chunk_reader;
mod chunk_writing;
mod laws;
mod page_cuts;
mod page_walk;

pub use chunk_entries::ChunkEntries;
pub use chunk_reader::ChunkReader;
pub use chunk_writing::write_chunk;
pub use laws::{written_chunks_read_back, written_pages_read_back};
