//! A range of a file, read.

ghost use Rattle.std.specs.Prelude.{◌≡◌, length, IfOk};
ghost use Rattle.store_read.specs.Ranges.{Fetches};

use shelf::{Shelf, ShelfError};
use std::alloc::Global;
use vs_bytes::{Bytes, NoMemory, Text};

/// Why a range wasn't read.
#[derive(Clone, Copy, PartialEq, Eq, Debug, Drop)]
pub enum FetchError {
    /// The shelf failed.
    Failed,
    /// There was no memory for the bytes.
    NoMemory,
}

fn zeros(alloc: Global, size: u64) -> Result<Vec<u8>, NoMemory>
    ensures { IfOk result (λ bytes. length bytes.items ≡ size) }
{
    let mut bytes = Vec::new(alloc);
    bytes.resize(size as usize, 0)?;
    Ok(bytes)
}

/// The `size` bytes of a file from `at` on.
pub(crate) fn fetch<S: Shelf>(
    alloc: Global,
    shelf: &mut S,
    name: &Text,
    at: u64,
    size: u64,
) -> Result<Bytes, FetchError>
    ensures { Fetches (S.seen shelf.old) (S.seen shelf.new) (record { name = name.now; at = at; size = size }) result }
{
    match zeros(alloc, size) {
        Ok(mut bytes) => match shelf.read_at(name, at, &mut bytes) {
            Ok(()) => match Bytes::from_vec(bytes) {
                Ok(bytes) => Ok(bytes),
                Err(NoMemory) => Err(FetchError::NoMemory),
            },
            Err(ShelfError::NoMemory) => Err(FetchError::NoMemory),
            Err(ShelfError::Failed) => Err(FetchError::Failed),
            Err(ShelfError::Absent) => Err(FetchError::Failed),
            Err(ShelfError::Taken) => Err(FetchError::Failed),
        },
        Err(NoMemory) => Err(FetchError::NoMemory),
    }
}
