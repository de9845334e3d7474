//! What a caller that knows only the trait learns of a shelf in memory: its files, and not less.
//!
//! A shelf that showed `None` for its files would meet `Shelf` whatever it gave. These calls show that
//! `MemShelf` isn't such: they go through the trait alone, and yet say what was read and written.

ghost use Rattle.std.specs.Prelude.{length};
ghost use Rattle.shelf.specs.Storage.{Has};
ghost use Rattle.shelf.specs.Calls.{Measures, Reads, Creates, Adds};
ghost use Rattle.shelf.specs.Memory.{mem_storage};

use crate::memory::MemShelf;
use crate::shelf::{Shelf, ShelfError};
use vs_bytes::Text;

fn length_any<S: Shelf>(shelf: &mut S, name: &Text) -> Result<u64, ShelfError>
    ensures { Measures (S.seen shelf.old) (S.seen shelf.new) name.now result }
{
    shelf.length(name)
}

fn read_any<S: Shelf>(
    shelf: &mut S,
    name: &Text,
    at: u64,
    into: &mut [u8],
) -> Result<(), ShelfError>
    ensures { Reads (S.seen shelf.old) (S.seen shelf.new) (record { name = name.now; at = at; size = length into.old }) into.new result }
{
    shelf.read_at(name, at, into)
}

fn create_any<S: Shelf>(shelf: &mut S, name: &Text) -> Result<(), ShelfError>
    ensures { Creates (S.seen shelf.old) (S.seen shelf.new) name.now result }
{
    shelf.create(name)
}

fn append_any<S: Shelf>(shelf: &mut S, name: &Text, bytes: &[u8]) -> Result<(), ShelfError>
    requires { Has (S.seen shelf.old).files name.now }
    ensures { Adds (S.seen shelf.old) (S.seen shelf.new) name.now bytes.now result }
{
    shelf.append(name, bytes)
}

/// Asks a shelf in memory as any shelf for the length of a file.
pub fn length_known(shelf: &mut MemShelf, name: &Text) -> Result<u64, ShelfError>
    ensures { Measures (mem_storage shelf.old) (mem_storage shelf.new) name.now result }
{
    length_any(shelf, name)
}

/// Reads a range from a shelf in memory as from any shelf.
pub fn read_known(
    shelf: &mut MemShelf,
    name: &Text,
    at: u64,
    into: &mut [u8],
) -> Result<(), ShelfError>
    ensures { Reads (mem_storage shelf.old) (mem_storage shelf.new) (record { name = name.now; at = at; size = length into.old }) into.new result }
{
    read_any(shelf, name, at, into)
}

/// Makes a file on a shelf in memory as on any shelf.
pub fn create_known(shelf: &mut MemShelf, name: &Text) -> Result<(), ShelfError>
    ensures { Creates (mem_storage shelf.old) (mem_storage shelf.new) name.now result }
{
    create_any(shelf, name)
}

/// Adds bytes to a file on a shelf in memory as on any shelf.
pub fn append_known(shelf: &mut MemShelf, name: &Text, bytes: &[u8]) -> Result<(), ShelfError>
    requires { Has (mem_storage shelf.old).files name.now }
    ensures { Adds (mem_storage shelf.old) (mem_storage shelf.new) name.now bytes.now result }
{
    append_any(shelf, name, bytes)
}
