//! Shelves of files.

ghost use Rattle.std.specs.Prelude.{length};
ghost use Rattle.shelf.specs.Storage.{Storage, Has};
ghost use Rattle.shelf.specs.Calls.{Measures, Reads, Creates, Adds};

use std::error::Error;
use thiserror::Error;
use vs_bytes::Text;

/// Why a call of a shelf was refused.
#[derive(Clone, Copy, PartialEq, Eq, Debug, Drop, Error)]
pub enum ShelfError {
    /// There is no file of this name.
    #[error("no such file")]
    Absent,
    /// There is a file of this name already.
    #[error("file exists")]
    Taken,
    /// The device failed, or the file hasn't the bytes that were asked for.
    #[error("access failed")]
    Failed,
    /// There was no memory.
    #[error("out of memory")]
    NoMemory,
}

/// Files by name, which are made once, written at their end, and read anywhere.
///
/// A shelf keeps every range that it is asked for, and counts its refusals by kind: a call raises no
/// count but the one that goes with its answer.
pub trait Shelf {
    /// The files, where they are known, the ranges that were asked for, and the counts.
    ghost seen: { Self → Storage };

    /// The length of a file in bytes.
    fn length(&mut self, name: &Text) -> Result<u64, ShelfError>
        ensures measures { Measures (seen self.old) (seen self.new) name.now result };

    /// Fills `into` with the bytes of a file from `at` on.
    ///
    /// The range is kept before anything is read. One that passes the end of the file is a fault, and so
    /// is a file that isn't there any more. After a refusal the content of `into` is open.
    fn read_at(&mut self, name: &Text, at: u64, into: &mut [u8]) -> Result<(), ShelfError>
        ensures reads { Reads (seen self.old) (seen self.new) (record {
          name = name.now;
          at = at;
          size = length into.old;
        }) into.new result };

    /// Makes a new file without bytes. A refusal changes no file.
    fn create(&mut self, name: &Text) -> Result<(), ShelfError>
        ensures creates { Creates (seen self.old) (seen self.new) name.now result };

    /// Adds bytes at the end of a file. After a refusal the first of them may stand there.
    fn append(&mut self, name: &Text, bytes: &[u8]) -> Result<(), ShelfError>
        requires there { Has (seen self.old).files name.now }
        ensures adds { Adds (seen self.old) (seen self.new) name.now bytes.now result };
}
