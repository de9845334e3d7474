//! Readers and writers of std as sources and sinks.
//!
//! What is known of their bytes is what std knows of the reader or the writer: nothing of a file, a
//! terminal or a pipe.

ghost use Rattle.std.specs.Prelude.{◌≡◌, ◌+◌, ◌-◌, ◌≤◌, ◌^◌, List, ℕ, min};
ghost use Rattle.outside.specs.Streams.{reader_of, read_faults, writer_of, write_faults};

use crate::sink::{Sink, SinkError};
use crate::source::{Source, SourceError};
use std::io::{ErrorKind, Read, Write};

// The error, for a call that failed and is counted. The count stays at its greatest value.
fn counted<E>(faults: &mut u64, error: E) -> E
    ensures later { faults.old ≤ faults.new }
    ensures rose { faults.new ≡ min (faults.old + 1) (2 ^ 64 - 1) }
    ensures same { result ≡ error }
{
    *faults = faults.saturating_add(1);
    error
}

/// A reader of std as a source. A read that a signal interrupts is tried again.
#[derive(Drop)]
pub struct StdSource<R> {
    inner: R,
    faults: u64,
}

impl<R: Read> StdSource<R> {
    /// A source over a reader, with no fault so far.
    pub fn new(inner: R) -> StdSource<R>
        ensures reader { reader_of result ≡ inner }
        ensures faults { read_faults result ≡ 0 }
    {
        StdSource { inner, faults: 0 }
    }
}

impl<R: Read> Source for StdSource<R> {
    ghost seen = { λ s. record { bytes = R.remaining (reader_of s); faults = read_faults s } };

    fn read(&mut self, into: &mut [u8]) -> Result<usize, SourceError> {
        for _turn in 0..u64::MAX {
            match self.inner.read(into) {
                Ok(count) => return Ok(count),
                Err(error) => {
                    if error.kind() != ErrorKind::Interrupted {
                        break;
                    }
                }
            }
        }
        Err(counted(&mut self.faults, SourceError::Failed))
    }
}

/// A writer of std as a sink. A write that a signal interrupts is tried again.
#[derive(Drop)]
pub struct StdSink<W> {
    inner: W,
    faults: u64,
}

impl<W: Write> StdSink<W> {
    /// A sink over a writer, with no fault so far.
    pub fn new(inner: W) -> StdSink<W>
        ensures writer { writer_of result ≡ inner }
        ensures faults { write_faults result ≡ 0 }
    {
        StdSink { inner, faults: 0 }
    }
}

impl<W: Write> Sink for StdSink<W> {
    ghost seen = { λ s. record { bytes = W.contents (writer_of s); faults = write_faults s } };

    fn write(&mut self, bytes: &[u8]) -> Result<usize, SinkError> {
        for _turn in 0..u64::MAX {
            match self.inner.write(bytes) {
                // A writer that takes nothing of some bytes will take nothing of them later.
                Ok(0) => break,
                Ok(count) => return Ok(count),
                Err(error) => {
                    if error.kind() != ErrorKind::Interrupted {
                        break;
                    }
                }
            }
        }
        Err(counted(&mut self.faults, SinkError::Failed))
    }
}
