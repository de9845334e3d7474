//! A chunk's entries, page by page.

ghost use Rattle.std.specs.Prelude.{◌≡◌, ◌<◌, length, Some, IfOk, IfSome, OnErr};
ghost use Rattle.vs_bytes.specs.Outcome.{Makes};
ghost use Rattle.chunks.specs.Turns.{standing, next_of, entries_of};

use crate::chunk_entries::{ChunkEntries, keep};
use crate::page_walk::next_page;
use pages::OpenPage;
use std::alloc::Global;
use std::marker::Model;
use vs_bytes::{Bytes, Leaf, Refusal, Refused};

/// A reader of the entries of a column chunk, page by page.
///
/// Contracts see it as where it stands: its leaf column, how many entries are still to come, and the bytes that
/// are still to come.
#[derive(Drop)]
pub struct ChunkReader {
    bytes: Bytes,
    at: usize,
    leaf: Leaf,
    left: Option<u64>,
}

impl Model for ChunkReader {
    ghost use Rattle.std.specs.Prelude.{◌≤◌, drop, length};
    ghost use Rattle.chunks.specs.Turns.{Standing};

    ghost Value = { Standing };

    ghost view = { λ r. record { leaf = r.leaf; left = r.left; rest = drop r.at r.bytes } };

    ghost invariant = { λ r. r.at ≤ length r.bytes };
}

impl ChunkReader {
    /// A reader of a chunk's bytes, which has `values` entries by its metadata.
    pub fn new(bytes: Bytes, leaf: Leaf, values: u64) -> ChunkReader
        ensures { result ≡ standing leaf (Some values) bytes }
    {
        ChunkReader {
            bytes,
            at: 0,
            leaf,
            left: Some(values),
        }
    }

    /// The next data page, judged whole, or `None` after the last. Index pages are passed over. Of its entries none is
    /// made yet but truth values.
    ///
    /// The rules of a page are found with it, and `ValueCount` at the end: the entries aren't as many as `new` was
    /// told. After an `Err` the reader stands where it stood.
    pub fn next(&mut self, alloc: Global) -> Result<Option<OpenPage>, Refusal>
        ensures exact { Makes (λ entries. (entries, self.new)) result (next_of self.old) }
        ensures more { IfOk result (λ entries. IfSome entries (λ _. length self.new.rest < length self.old.rest)) }
        ensures err { OnErr result (self.new ≡ self.old) }
    {
        match next_page(alloc, &self.leaf, self.left, self.bytes.as_slice(), self.at) {
            Ok((entries, left, at)) => {
                self.left = left;
                self.at = at;
                Ok(entries)
            }
            Err(refusal) => Err(refusal),
        }
    }

    /// All entries that are still to come, or the first rule that is violated. None is made yet but truth values.
    pub fn into_entries(self, alloc: Global) -> Result<ChunkEntries, Refusal>
        ensures exact { Makes (λ entries. entries) result (entries_of self) }
    {
        let mut reader = self;
        let mut found = Vec::new(alloc);
        loop {
            match reader.next(alloc) {
                Ok(page) => match page {
                    Some(page) => match keep(&mut found, page) {
                        Ok(()) => {}
                        Err(_) => return Err(Refused::NoMemory),
                    },
                    None => return Ok(ChunkEntries::of_pages(found)),
                },
                Err(refusal) => return Err(refusal),
            }
        }
    }
}
