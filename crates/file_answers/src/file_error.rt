//! Why a call on a file was refused.

ghost use Rattle.std.specs.Prelude.{◌≡◌};
ghost use Rattle.file_answers.specs.Answering.{error_of};

use std::error::Error;
use store_file::{QueryFault, Violation};
use thiserror::Error;

/// Why a call on a file was refused.
#[derive(Clone, Copy, PartialEq, Eq, Debug, Drop, Error)]
pub enum FileError {
    /// There is no file of the name.
    #[error("no such file")]
    Absent,
    /// What the file violates first in what the call reads of it.
    #[error("refused: {0:?}")]
    Violated(Violation),
    /// A read failed.
    #[error("read failed")]
    ReadFault,
    /// A write failed.
    #[error("write failed")]
    WriteFault,
    /// There was no memory.
    #[error("out of memory")]
    NoMemory,
}

/// Why the groups of a file weren't read to their end, as why the call was refused.
pub(crate) fn error_of(fault: QueryFault) -> FileError
    ensures { result ≡ error_of fault }
{
    match fault {
        QueryFault::Refused(violation) => FileError::Violated(violation),
        QueryFault::ReadFault => FileError::ReadFault,
        QueryFault::WriteFault => FileError::WriteFault,
        QueryFault::NoMemory => FileError::NoMemory,
    }
}
