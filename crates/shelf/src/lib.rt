//! Files that are read by ranges and written at their end, on a shelf that counts its refusals and
//! keeps which ranges were asked for.
//!
//! | Module | What it holds |
//! |---|---|
//! | `shelf` | `Shelf`: the calls, with `ShelfError` |
//! | `byte_range` | `ByteRange`: a range of a file that was asked for |
//! | `tally` | `Counts`: how often each kind of refusal came |
//! | `pieces` | `append_all`: several pieces, one after another |
//! | `memory` | `MemShelf`: files in memory, with calls that fail by plan |
//! | `memory_files` | its files by their names |
//! | `call_plan` | which of its calls fail |
//! | `folder` | `DirShelf`: the files of the working folder |
//! | `known` | that a shelf in memory tells its files to whoever knows only the trait |
#![tactic(auto)]

mod byte_range;
mod call_plan;
mod folder;
mod known;
mod memory;
mod memory_files;
mod pieces;
mod shelf;
mod tally;

pub use byte_range::ByteRange;
pub use folder::DirShelf;
pub use known::{append_known, create_known, length_known, read_known};
pub use memory::MemShelf;
pub use pieces::append_all;
pub use shelf::{Shelf, ShelfError};
pub use tally::Counts;
