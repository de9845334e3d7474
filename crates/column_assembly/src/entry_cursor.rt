//! The entries that are left in a leaf.

ghost use Rattle.std.specs.Prelude.{◌≡◌, ◌++◌, [], not, true, false, ◌≤◌, length, drop, is_some, IfSome, IfNone, OnOk, OnErr};
ghost use Rattle.record_assembly.specs.Cuts.{until, first_item, later_items, is_nil};
ghost use Rattle.record_assembly.specs.Reading.{is_null, only_cell};
ghost use Rattle.column_assembly.specs.Items.{is_whole, cell_of, number_in};

use crate::items;
use std::alloc::Global;
use std::marker::Model;
use std::mem;
use vs_bytes::{Cell, Entry, EntryList, NoMemory, Prim, Sequence};

/// A leaf's entries, as they are taken in order: contracts see those that are left.
#[derive(Drop)]
pub struct Cursor {
    entries: Vec<Entry>,
    at: usize,
}

impl Model for Cursor {
    ghost use Rattle.std.specs.Prelude.{List, ◌≤◌, drop, length};
    ghost use Rattle.vs_bytes.specs.declared.leaf_columns.Entry.{Entry};

    ghost Value = { List Entry };

    ghost view = { λ c. drop c.at c.entries.items };

    ghost invariant = { λ c. c.at ≤ length c.entries.items };
}

impl Cursor {
    /// No entries.
    pub fn new(alloc: Global) -> Cursor
        ensures { result ≡ [] }
    {
        Cursor {
            entries: Vec::new(alloc),
            at: 0,
        }
    }

    /// Puts more entries after those that are left, and moves them: no value is copied. The room of those that were taken
    /// is let go. What `more` holds after an `Ok` is open. After an `Err` nothing has changed.
    pub fn feed(&mut self, alloc: Global, more: &mut EntryList) -> Result<(), NoMemory>
        ensures ok { OnOk result (self.new ≡ self.old ++ more.old) }
        ensures err { OnErr result (self.new ≡ self.old) }
        ensures kept { OnErr result (more.new ≡ more.old) }
    {
        let_go(&mut self.entries, self.at)?;
        self.at = 0;
        let mut entries = mem::replace(more, Sequence::new(alloc)).into_vec();
        if self.entries.is_empty() {
            self.entries = entries;
            return Ok(());
        }
        let appended = self.entries.append(&mut entries);
        *more = Sequence::from_vec(entries);
        appended?;
        Ok(())
    }

    /// Whether the first item is one entry without value, which has these levels: `lists` is that of the list, `rep`
    /// and `def` those of the entry.
    pub fn is_null(&self, lists: u16, rep: u16, def: u16) -> bool
        ensures { result ≡ is_null rep def (first_item lists self.now) }
    {
        items::is_null(self.left(), lists, rep, def)
    }

    /// Whether the first entry that is left goes on an item of a list at level `lists`.
    pub fn goes_on(&self, lists: u16) -> bool
        ensures { result ≡ not (is_nil (until lists self.now)) }
    {
        items::goes_on(self.left(), lists)
    }

    /// Whether all entries of the next row are there; `ended` says that no more entries come.
    pub fn is_whole(&self, ended: bool) -> bool
        ensures { result ≡ is_whole ended self.now }
    {
        let left = self.left();
        !left.is_empty() && (ended || items::has_later(left, 0))
    }

    /// Takes the cell of the first item, where that is one entry with these levels and a value.
    #[tactic(auto, using(crate::proofs::OneEntry::one_passed, crate::proofs::OneEntry::one_cell, crate::proofs::OneEntry::no_cell))]
    pub fn take_cell(&mut self, lists: u16, rep: u16, def: u16) -> Option<Cell>
        ensures cell { result ≡ only_cell rep def (first_item lists self.old) }
        ensures next { IfSome result (λ cell. self.new ≡ later_items lists self.old) }
    {
        if !items::is_one(self.left(), lists, rep, def) {
            return None;
        }
        let taken = &mut self.entries[self.at];
        let cell = taken.value.take();
        self.at += 1;
        cell
    }

    /// Takes the cell of the first item, where that is one entry with these levels and a value of the kind. Where it
    /// isn't, nothing is taken.
    #[inline(always)]
    #[tactic(auto, using(crate::proofs::OneEntry::suited, crate::proofs::OneEntry::not_suited))]
    pub fn take_suited(&mut self, prim: Prim, lists: u16, rep: u16, def: u16) -> Option<Cell>
        ensures cell { result ≡ cell_of prim (only_cell rep def (first_item lists self.old)) }
        ensures next { IfSome result (λ cell. self.new ≡ later_items lists self.old) }
        ensures kept { IfNone result (self.new ≡ self.old) }
    {
        // Looked at first, so that a cell is moved only where it is taken.
        if !self.is_suited(prim, lists, rep, def) {
            return None;
        }
        self.take_cell(lists, rep, def)
    }

    /// Takes the number of the first item, where that is one entry with these levels and a number of the kind. Where
    /// it isn't, nothing is taken. The number is copied, and its entry stays as it is.
    #[inline(always)]
    #[tactic(auto, using(crate::proofs::OneEntry::number_passed))]
    pub fn take_number(&mut self, prim: Prim, lists: u16, rep: u16, def: u16) -> Option<i128>
        ensures number { result ≡ number_in (cell_of prim (only_cell rep def (first_item lists self.old))) }
        ensures next { IfSome result (λ n. self.new ≡ later_items lists self.old) }
        ensures kept { IfNone result (self.new ≡ self.old) }
    {
        let number = self.number(prim, lists, rep, def)?;
        self.at += 1;
        Some(number)
    }

    // The number of the first item, where that is one entry with these levels and a number of the kind.
    #[inline(always)]
    #[tactic(auto, using(crate::proofs::OneEntry::one_value, crate::proofs::OneEntry::no_cell, crate::proofs::OneEntry::number_there))]
    fn number(&self, prim: Prim, lists: u16, rep: u16, def: u16) -> Option<i128>
        ensures number { result ≡ number_in (cell_of prim (only_cell rep def (first_item lists self.now))) }
        ensures there { IfSome result (λ n. 1 ≤ length self.now) }
    {
        let left = self.left();
        if items::is_one(left, lists, rep, def) {
            items::first_number(left, prim)
        } else {
            None
        }
    }

    // Whether the first item is one entry with these levels and a value of the kind.
    #[tactic(auto, using(crate::proofs::OneEntry::one_value, crate::proofs::OneEntry::no_cell))]
    fn is_suited(&self, prim: Prim, lists: u16, rep: u16, def: u16) -> bool
        ensures { result ≡ is_some (cell_of prim (only_cell rep def (first_item lists self.now))) }
    {
        let left = self.left();
        items::is_one(left, lists, rep, def) && items::has_suited(left, prim)
    }

    /// Takes the first item where it is one entry without value, which has these levels, and says whether it was.
    #[tactic(auto, using(crate::proofs::OneEntry::null_passed))]
    pub fn take_null(&mut self, lists: u16, rep: u16, def: u16) -> bool
        ensures was { result ≡ is_null rep def (first_item lists self.old) }
        ensures next { result ≡ true → self.new ≡ later_items lists self.old }
        ensures kept { result ≡ false → self.new ≡ self.old }
    {
        if !self.is_null(lists, rep, def) {
            return false;
        }
        self.at += 1;
        true
    }

    fn left(&self) -> &[Entry]
        ensures { result.now ≡ self.now }
    {
        &self.entries[self.at..]
    }
}

// Lets the first `count` entries go, so that those that were taken don't pile up.
fn let_go(entries: &mut Vec<Entry>, count: usize) -> Result<(), NoMemory>
    requires { count ≤ length entries.old.items }
    ensures ok { OnOk result (entries.new.items ≡ drop count entries.old.items) }
    ensures err { OnErr result (entries.new ≡ entries.old) }
{
    if count == 0 {
        return Ok(());
    }
    let left = entries.split_off(count)?;
    *entries = left;
    Ok(())
}
