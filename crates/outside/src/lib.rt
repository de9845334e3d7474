//! What the program reads from and writes to: byte sources and sinks that count their faults.
//!
//! | Module | What it holds |
//! |---|---|
//! | `source` | `Source`: something that bytes are read from, with `SourceError` |
//! | `sink` | `Sink`: something that bytes are written to, with `SinkError`, and `write_all` |
//! | `output_buffer` | `OutputBuffer`: output that is gathered, and written in pieces |
//! | `streams` | `StdSource`, `StdSink`: a reader or a writer of std |
//! | `memory` | `MemSource`, `MemSink`: bytes in memory, with calls that fail by plan |
//! | `known` | that objects in memory tell their bytes to whoever knows only the traits |
//! | `fault_plan` | which calls of those fail |
#![tactic(auto)]

mod fault_plan;
mod known;
mod memory;
mod output_buffer;
mod sink;
mod source;
mod streams;

pub use known::{read_known, write_known};
pub use memory::{MemSink, MemSource};
pub use output_buffer::OutputBuffer;
pub use sink::{Sink, SinkError, write_all};
pub use source::{Source, SourceError};
pub use streams::{StdSink, StdSource};
