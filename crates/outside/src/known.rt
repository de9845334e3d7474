//! What a caller that knows only the traits learns of an object in memory: its bytes, and not less.
//!
//! A source that showed `None` for its bytes would meet `Source` whatever it gave. These calls show
//! that `MemSource` and `MemSink` aren't such: they go through the trait alone, and yet say what was
//! read and written.

ghost use Rattle.std.specs.Prelude.{◌<◌, length};
ghost use Rattle.outside.specs.Calls.{Reads, WritesAll};
ghost use Rattle.outside.specs.Memory.{source_device, sink_device};

use crate::memory::{MemSink, MemSource};
use crate::sink::{SinkError, write_all};
use crate::source::{Source, SourceError};

// A read of any source.
fn read_any<S: Source>(source: &mut S, into: &mut [u8]) -> Result<usize, SourceError>
    requires { 0 < length into.old }
    ensures { Reads (S.seen source.old) (S.seen source.new) into.new result }
{
    source.read(into)
}

/// Reads from a source in memory as from any source.
pub fn read_known(source: &mut MemSource, into: &mut [u8]) -> Result<usize, SourceError>
    requires { 0 < length into.old }
    ensures { Reads (source_device source.old) (source_device source.new) into.new result }
{
    read_any(source, into)
}

/// Writes all the bytes of a piece to a sink in memory as to any sink.
pub fn write_known(sink: &mut MemSink, bytes: &[u8]) -> Result<(), SinkError>
    ensures { WritesAll (sink_device sink.old) (sink_device sink.new) bytes.now result }
{
    write_all(sink, bytes)
}
