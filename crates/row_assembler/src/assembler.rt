//! Entries in, rows out.

ghost use Rattle.std.specs.Prelude.{◌≡◌, ℕ, ◌+◌, ◌<◌, ◌++◌, [], Bool, List, true, false, None, length, slice_index_or, slice_set, IfOk, OnOk, OnErr};
ghost use Rattle.shred_schema.specs.Groups.{Group, width};
ghost use Rattle.shred_schema.specs.Lawful.{IsWellFormed};
ghost use Rattle.shred_schema.specs.Ranges.{reads, none_read};
ghost use Rattle.shred_schema.specs.Views.{group_of};
ghost use Rattle.column_assembly.specs.Items.{is_whole};
ghost use Rattle.row_assembler.specs.Assembly.{Answers, Fed, IsFor, IsReadLeaf, left};
ghost use Rattle.row_assembler.specs.KeptAnswers.{NextKept};

use crate::leaf_places::{empty_cursors, leaf_places};
use crate::row_taking::take_row;
use column_assembly::{Cursor, are_whole};
use shred_schema::{Column, Mask, Node, RowRecord, project};
use std::alloc::Global;
use std::marker::Model;
use vs_bytes::{EntryList, NoMemory, Refusal, Refused, Rule};

/// Puts the rows of a column together from the entries of the leaves that a mask reads.
///
/// Contracts see the entries that are left in each leaf, and tell the column and the mask by `IsFor`.
#[derive(Drop)]
pub struct Assembler {
    optional: bool,
    meta: bool,
    node: Node,
    places: Vec<Option<usize>>,
    cursors: Vec<Cursor>,
    ended: bool,
    stop: Option<Refusal>,
}

impl Model for Assembler {
    ghost use Rattle.row_assembler.specs.Assembly.{Assembly};
    ghost use Rattle.row_assembler.specs.KeptAnswers.{IsSound};
    ghost use Rattle.shred_schema.specs.contracts.nodes.Node as n;
    ghost use Rattle.std.specs.Coded.{codes};

    ghost Value = { Assembly };

    ghost coded = { Prim.hlevel (codes, n.the_row.coded) };

    ghost view = { λ a. record { optional = a.optional; meta = a.meta; node = a.node; places = a.places.items; leaves = a.cursors.items; ended = a.ended; stop = a.stop } };

    ghost invariant = { λ a. IsSound a.meta a.node a.places.items a.cursors.items };
}

impl Assembler {
    /// An assembler of the column's rows, of which the mask reads some leaf. No entries have come.
    pub fn new(alloc: Global, column: &Column, mask: &Mask) -> Result<Assembler, NoMemory>
        requires column { IsWellFormed (group_of column.now.node) }
        requires mask { length mask.now ≡ 1 + width (group_of column.now.node) }
        requires some { none_read (reads mask.now) 0 (1 + width (group_of column.now.node)) ≡ false }
        ensures column { IfOk result (λ a. IsFor a column.now.optional (group_of column.now.node) mask.now) }
        ensures empty { IfOk result (λ a. (j : ℕ) → left a j ≡ []) }
        ensures ended { IfOk result (λ a. a.ended ≡ false) }
        ensures stop { IfOk result (λ a. a.stop ≡ None) }
    {
        let read = mask.as_slice();
        let (places, count) = leaf_places(alloc, read)?;
        let cursors = empty_cursors(alloc, count)?;
        let node = project(alloc, &column.node, 1, read)?;
        Ok(Assembler {
            optional: column.optional,
            meta: read[0],
            node,
            places,
            cursors,
            ended: false,
            stop: None,
        })
    }

    /// Puts entries after those that are left in a leaf, and moves them: no value is copied. `leaf` is its number in
    /// the column. What `more` holds after an `Ok` is open. After an `Err` nothing has changed.
    ///
    /// Nothing else is asked of the entries: `next_row` finds levels and values that no row record has.
    pub fn feed(&mut self, alloc: Global, leaf: usize, more: &mut EntryList) -> Result<(), NoMemory>
        requires read { IsReadLeaf self.old leaf }
        ensures ok { OnOk result (Fed self.old self.new leaf more.old) }
        ensures column { (o : Bool) (n : Group) (mask : List Bool) → IsFor self.old o n mask → IsFor self.new o n mask }
        ensures err { OnErr result (self.new ≡ self.old) }
        ensures kept { OnErr result (more.new ≡ more.old) }
    {
        match self.places[leaf] {
            Some(place) => feed_at(alloc, &mut self.cursors, place, more),
            None => Ok(()),
        }
    }

    /// The next row: what the mask leaves of each row record whose entries in the leaves that are read are the next
    /// row's. `None` exactly where some leaf that is read has no whole row yet; after the last row that is so in every
    /// leaf that has no entries left.
    ///
    /// `LevelMismatch` exactly where no row record has the next row's entries. It is answered again from then on, and
    /// so is `NoMemory`: no row is passed over or given twice.
    pub fn next_row(&mut self, alloc: Global) -> Result<Option<RowRecord>, Refusal>
        ensures row { (o : Bool) (n : Group) (mask : List Bool) → IsFor self.old o n mask → Answers o n mask self.old self.new result }
        ensures column { (o : Bool) (n : Group) (mask : List Bool) → IsFor self.old o n mask → IsFor self.new o n mask }
    {
        self.next_kept(alloc)
    }

    // The same in terms of the projected column.
    fn next_kept(&mut self, alloc: Global) -> Result<Option<RowRecord>, Refusal>
        ensures { NextKept self.old self.new result }
    {
        if let Some(refusal) = self.stop {
            return Err(refusal);
        }
        if !are_whole(&self.cursors, self.ended) {
            return Ok(None);
        }
        match take_row(
            alloc,
            &mut self.cursors,
            self.optional,
            self.meta,
            &self.node,
        ) {
            Ok(row) => Ok(Some(row)),
            Err(Refused::Fault(_)) => {
                self.stop = Some(Refused::Fault(Rule::LevelMismatch));
                Err(Refused::Fault(Rule::LevelMismatch))
            }
            Err(Refused::NoMemory) => {
                self.stop = Some(Refused::NoMemory);
                Err(Refused::NoMemory)
            }
        }
    }

    /// Whether a leaf that is read has all entries of its next row. `leaf` is its number in the column.
    pub fn is_whole(&self, leaf: usize) -> bool
        requires read { IsReadLeaf self.now leaf }
        ensures { result ≡ is_whole self.now.ended (left self.now leaf) }
    {
        match self.places[leaf] {
            Some(place) => self.cursors[place].is_whole(self.ended),
            None => false,
        }
    }

    /// No more entries come: a leaf's last row is whole where its entries end.
    pub fn end(&mut self)
        ensures ended { self.new ≡ record self.old { ended = true } }
        ensures column { (o : Bool) (n : Group) (mask : List Bool) → IsFor self.old o n mask → IsFor self.new o n mask }
    {
        self.ended = true;
    }
}

// Puts entries after those of one place.
fn feed_at(
    alloc: Global,
    cursors: &mut [Cursor],
    place: usize,
    more: &mut EntryList,
) -> Result<(), NoMemory>
    requires { place < length cursors.old }
    ensures ok { OnOk result (cursors.new ≡ slice_set cursors.old place (slice_index_or cursors.old place [] ++ more.old)) }
    ensures err { OnErr result (cursors.new ≡ cursors.old) }
    ensures kept { OnErr result (more.new ≡ more.old) }
{
    let cursor = &mut cursors[place];
    cursor.feed(alloc, more)
}
