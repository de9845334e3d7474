//! The entries of a chunk, given in pieces.

ghost use Rattle.std.specs.Prelude.{◌≡◌, ◌↔◌, ◌++◌, ◌≤◌, ◌==◌, [], IfOk, OnOk, min, IsTrue, length, drop};
ghost use Rattle.chunks.specs.Pieces.{all_of, IsFirstLeft};
ghost use Rattle.chunks.specs.RowStarts.{row_starts, begins_row, has_rows};

use pages::OpenPage;
use std::alloc::Global;
use std::marker::Model;
use vs_bytes::{EntryList, NoMemory, Sequence};

/// The entries of a chunk whose rules were all judged. Contracts see those that are still to come.
#[derive(Drop)]
pub struct ChunkEntries {
    pages: Vec<OpenPage>,
    // How many pages have no entries left.
    at: usize,
}

impl Model for ChunkEntries {
    ghost use Rattle.std.specs.Prelude.{List, ◌≤◌, drop, length};
    ghost use Rattle.vs_bytes.specs.declared.leaf_columns.Entry.{Entry};
    ghost use Rattle.chunks.specs.Pieces.{all_of};

    ghost Value = { List Entry };

    ghost view = { λ c. all_of (drop c.at c.pages.items) };

    ghost invariant = { λ c. c.at ≤ length c.pages.items };
}

/// Puts one more page after the others, unless it has no entries.
pub(crate) fn keep(pages: &mut Vec<OpenPage>, page: OpenPage) -> Result<(), NoMemory>
    ensures { OnOk result (all_of pages.new.items ≡ all_of pages.old.items ++ page) }
{
    if !page.is_empty() {
        pages.push(page)?;
    }
    Ok(())
}

// The first page from `from` on of which an entry is left, or the end.
fn first_left(pages: &[OpenPage], from: usize) -> usize
    requires { from ≤ length pages.now }
    ensures { IsFirstLeft pages.now from result }
{
    for k in from..pages.len() {
        if !pages[k].is_empty() {
            return k;
        }
    }
    pages.len()
}

// Whether so many rows begin in the entries of the pages from `from` on.
fn row_starts_are(pages: &[OpenPage], from: usize, rows: u64) -> bool
    requires { from ≤ length pages.now }
    ensures { result ≡ (row_starts (all_of (drop from pages.now)) == rows) }
{
    let mut left = rows;
    for k in from..pages.len() {
        match left.checked_sub(pages[k].row_starts() as u64) {
            Some(less) => left = less,
            None => return false,
        }
    }
    left == 0
}

impl ChunkEntries {
    /// No entries.
    pub fn new(alloc: Global) -> ChunkEntries
        ensures { result ≡ [] }
    {
        ChunkEntries {
            pages: Vec::new(alloc),
            at: 0,
        }
    }

    /// Those of pages.
    pub(crate) fn of_pages(pages: Vec<OpenPage>) -> ChunkEntries
        ensures { result ≡ all_of pages.items }
    {
        ChunkEntries { pages, at: 0 }
    }

    /// The next entries, `most` of them or as many as are left. After an `Err` some may be lost.
    pub fn take(&mut self, alloc: Global, most: usize) -> Result<EntryList, NoMemory>
        ensures taken { IfOk result (λ entries. self.old ≡ entries ++ self.new) }
        ensures count { IfOk result (λ entries. length entries ≡ min most (length self.old)) }
    {
        let mut found = self.take_some(alloc, most)?.into_vec();
        while found.len() < most && !self.is_empty() {
            let mut more = self.take_some(alloc, most - found.len())?.into_vec();
            found.append(&mut more)?;
        }
        Ok(Sequence::from_vec(found))
    }

    // Some of them: none beyond the end of a page, and one at least where any is left.
    fn take_some(&mut self, alloc: Global, most: usize) -> Result<EntryList, NoMemory>
        ensures taken { IfOk result (λ entries. self.old ≡ entries ++ self.new) }
        ensures most { IfOk result (λ entries. length entries ≤ most) }
        ensures some { IfOk result (λ entries. 1 ≤ most → length entries ≡ 0 → self.new ≡ []) }
    {
        self.at = first_left(&self.pages, self.at);
        if self.at == self.pages.len() {
            return Ok(Sequence::new(alloc));
        }
        let page = &mut self.pages[self.at];
        page.take(alloc, most)
    }

    /// Whether no entries are left.
    pub fn is_empty(&self) -> bool
        ensures { IsTrue result ↔ (self.now ≡ []) }
    {
        let at = first_left(&self.pages, self.at);
        if at < self.pages.len() {
            return false;
        }
        true
    }

    /// Whether the entries that are left are those of so many rows.
    pub fn has_rows(&self, rows: u64) -> bool
        ensures { result ≡ has_rows rows self.now }
    {
        self.begins_row() && row_starts_are(&self.pages, self.at, rows)
    }

    // Whether the entries that are left begin with a row, if there are any.
    fn begins_row(&self) -> bool
        ensures { result ≡ begins_row self.now }
    {
        let at = first_left(&self.pages, self.at);
        if at == self.pages.len() {
            return true;
        }
        self.pages[at].begins_row()
    }
}
