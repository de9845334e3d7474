//! Sources of bytes.

ghost use Rattle.std.specs.Prelude.{◌<◌, length};
ghost use Rattle.outside.specs.Devices.{Device};
ghost use Rattle.outside.specs.Calls.{Reads};

use std::error::Error;
use thiserror::Error;

/// Why a read gave nothing.
#[derive(Clone, Copy, PartialEq, Eq, Debug, Drop, Error)]
pub enum SourceError {
    /// The device failed.
    #[error("read failed")]
    Failed,
}

/// Something that bytes are read from.
pub trait Source {
    /// The bytes that are left, where they are known, and how often the device has failed.
    ghost seen: { Self → Device };

    /// Reads some bytes into the front of `into`, and answers how many; 0 is the end of the input.
    ///
    /// After `Failed` this call took nothing.
    fn read(&mut self, into: &mut [u8]) -> Result<usize, SourceError>
        requires { 0 < length into.old }
        ensures reads { Reads (seen self.old) (seen self.new) into.new result };
}
