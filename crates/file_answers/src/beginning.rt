//! The file and the column that a call reads.

ghost use Rattle.std.specs.Prelude.{IfOk};
ghost use Rattle.store_file.specs.Beginning.{IsUsable};
ghost use Rattle.file_answers.specs.Beginning.{BeginsFile};

use crate::file_error::FileError;
use shelf::Shelf;
use std::alloc::Global;
use store_file::{Place, StoreFile, Violation};
use thrift_footer::OpenFault;
use vs_bytes::Text;

/// Begins a file, or says why the call on it is refused.
pub(crate) fn begin_file<S: Shelf>(
    alloc: Global,
    shelf: &mut S,
    name: Text,
    column: &Text,
) -> Result<StoreFile, FileError>
    ensures begins { BeginsFile name column.now (S.seen shelf.old) (S.seen shelf.new) result }
    ensures usable { IfOk result IsUsable }
{
    match StoreFile::begin(alloc, shelf, name, column.as_str()) {
        Ok(file) => Ok(file),
        Err(OpenFault::Absent) => Err(FileError::Absent),
        Err(OpenFault::Failed) => Err(FileError::ReadFault),
        Err(OpenFault::Refused(rule)) => Err(FileError::Violated(Violation {
            rule,
            place: Place::File,
        })),
        Err(OpenFault::NoMemory) => Err(FileError::NoMemory),
    }
}
