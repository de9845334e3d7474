//! Sinks for bytes.

ghost use Rattle.std.specs.Prelude.{◌<◌, length};
ghost use Rattle.outside.specs.Devices.{Device};
ghost use Rattle.outside.specs.Calls.{Writes, WritesAll};

use std::error::Error;
use thiserror::Error;

/// Why a write took nothing.
#[derive(Clone, Copy, PartialEq, Eq, Debug, Drop, Error)]
pub enum SinkError {
    /// The device failed, or took nothing of a piece that wasn't empty.
    #[error("write failed")]
    Failed,
    /// There was no memory for the bytes.
    #[error("out of memory")]
    NoMemory,
}

/// Something that bytes are written to.
pub trait Sink {
    /// The bytes that were written, where they are known, and how often the device has failed.
    ghost seen: { Self → Device };

    /// Writes the first bytes of a piece, at least one, and answers how many.
    ///
    /// After a refusal this call wrote nothing.
    fn write(&mut self, bytes: &[u8]) -> Result<usize, SinkError>
        requires { 0 < length bytes.now }
        ensures writes { Writes (seen self.old) (seen self.new) bytes.now result };
}

/// Writes all the bytes of a piece.
///
/// After a refusal a part of them was written.
pub fn write_all<K: Sink>(sink: &mut K, bytes: &[u8]) -> Result<(), SinkError>
    ensures writes { WritesAll (K.seen sink.old) (K.seen sink.new) bytes.now result }
{
    let mut done = 0;
    while done < bytes.len() {
        match sink.write(&bytes[done..]) {
            Ok(count) => done += count,
            Err(fault) => return Err(fault),
        }
    }
    Ok(())
}
