//! The pages of a chunk, written.

ghost use Rattle.std.specs.Prelude.{◌≡◌, ◌<◌, ◌≤◌, ◌++◌, length, take, IfOk};
ghost use Rattle.std.specs.List.{All};
ghost use Rattle.pages.specs.Entries.{IsEntry};
ghost use Rattle.pages.specs.Written.{page_written, weights};
ghost use Rattle.chunks.specs.PageCuts.{page_len, chunk_written};

use crate::page_cuts::page_len;
use pages::write_page;
use std::alloc::Global;
use vs_bytes::{Bytes, Entry, Leaf, NoMemory};

// Appends the first page of entries, and gives how many it has.
fn append_page(
    into: &mut Vec<u8>,
    alloc: Global,
    leaf: &Leaf,
    entries: &[Entry],
    page_bytes: u32,
) -> Result<usize, NoMemory>
    requires of { All (IsEntry leaf.now) entries.now }
    requires light { weights leaf.now.phys entries.now ≤ 1000000000 }
    ensures cut { IfOk result (λ len. len ≡ page_len leaf.now.phys page_bytes entries.now) }
    ensures page { IfOk result (λ len. into.new.items ≡ into.old.items ++ page_written leaf.now (take len entries.now)) }
    ensures within { IfOk result (λ len. len ≤ length entries.now) }
{
    let len = page_len(leaf, page_bytes, entries);
    write_page(into, alloc, leaf, &entries[..len])?;
    Ok(len)
}

/// The bytes of a chunk for entries of a leaf column.
///
/// A page ends after the row with which its weight reaches `page_bytes`, or with the last entry. An entry weighs 4 and
/// the bytes of its value in PLAIN, a truth value 1. Only memory can fail.
pub fn write_chunk(
    alloc: Global,
    leaf: &Leaf,
    entries: &[Entry],
    page_bytes: u32,
) -> Result<Bytes, NoMemory>
    requires of { All (IsEntry leaf.now) entries.now }
    requires light { weights leaf.now.phys entries.now ≤ 1000000000 }
    ensures { IfOk result (λ bytes. bytes ≡ chunk_written leaf.now page_bytes entries.now) }
{
    let mut bytes = Vec::new(alloc);
    let mut at = 0;
    while at < entries.len() {
        at += append_page(&mut bytes, alloc, leaf, &entries[at..], page_bytes)?;
    }
    match Bytes::from_vec(bytes) {
        Ok(chunk) => Ok(chunk),
        Err(refused) => Err(refused),
    }
}
