//! Pages that are judged whole, and give their entries in pieces.

ghost use Rattle.std.specs.Prelude.{◌≡◌, ◌↔◌, ◌++◌, ◌<◌, [], length, min, Ok, Err, IfOk, OnErr, IsTrue};
ghost use Rattle.vs_bytes.specs.Outcome.{Makes};
ghost use Rattle.pages.specs.ReadInTurn.{entries_at_once};
ghost use Rattle.pages.specs.RowStarts.{row_starts, begins_row};
ghost use Rattle.pages.specs.Shown.{shown};

use crate::joining::entries_at_once;
use crate::levels::Levels;
use crate::ready::Ready;
use crate::waiting::Waiting;
use std::alloc::Global;
use std::marker::Model;
use vs_bytes::{EntryList, Leaf, NoMemory, Phys, Refusal};

/// How the entries of a page are held.
#[derive(Drop)]
pub(crate) enum Held {
    /// Truth values are bits, which are read at once.
    Ready(Ready),
    /// Others are made as they are asked for.
    Waiting(Waiting),
}

/// A data page whose rules were all judged. Contracts see the entries that are still to come.
#[derive(Drop)]
pub struct OpenPage {
    held: Held,
}

impl Model for OpenPage {
    ghost use Rattle.std.specs.Prelude.{List};
    ghost use Rattle.vs_bytes.specs.declared.leaf_columns.Entry.{Entry};
    ghost use Rattle.pages.specs.Held.{entries_held};

    ghost Value = { List Entry };

    ghost view = { λ p. entries_held p.held };
}

impl OpenPage {
    /// The entries of `count` levels of both kinds, and of the values at the front of `bytes`; or the first rule that the
    /// values violate.
    pub(crate) fn of(
        alloc: Global,
        leaf: &Leaf,
        count: usize,
        reps: Levels,
        defs: Levels,
        bytes: &[u8],
    ) -> Result<OpenPage, Refusal>
        requires reps { length (shown reps) ≡ count }
        requires defs { length (shown defs) ≡ count }
        ensures { Makes (λ entries. entries) result (entries_at_once leaf.now (shown reps) (shown defs) bytes.now) }
    {
        match leaf.phys {
            Phys::Boolean => match entries_at_once(alloc, leaf, count, &reps, &defs, bytes) {
                Ok(entries) => Ok(OpenPage {
                    held: Held::Ready(Ready::of(entries)),
                }),
                Err(refusal) => Err(refusal),
            },
            _ => match Waiting::of(alloc, leaf, count, reps, defs, bytes) {
                Ok(waiting) => Ok(OpenPage {
                    held: Held::Waiting(waiting),
                }),
                Err(refusal) => Err(refusal),
            },
        }
    }

    /// The next entries, `most` of them or as many as are left. After an `Err` nothing has changed.
    pub fn take(&mut self, alloc: Global, most: usize) -> Result<EntryList, NoMemory>
        ensures taken { IfOk result (λ entries. self.old ≡ entries ++ self.new) }
        ensures count { IfOk result (λ entries. length entries ≡ min most (length self.old)) }
        ensures err { OnErr result (self.new ≡ self.old) }
    {
        match &mut self.held {
            Held::Ready(ready) => ready.take(most),
            Held::Waiting(waiting) => waiting.take(alloc, most),
        }
    }

    /// How many entries are left.
    pub fn len(&self) -> usize
        ensures { result ≡ length self.now }
    {
        match &self.held {
            Held::Ready(ready) => ready.len(),
            Held::Waiting(waiting) => waiting.len(),
        }
    }

    /// Whether no entries are left.
    pub fn is_empty(&self) -> bool
        ensures { IsTrue result ↔ (self.now ≡ []) }
    {
        self.len() == 0
    }

    /// How many rows begin in the entries that are left.
    pub fn row_starts(&self) -> usize
        ensures { result ≡ row_starts self.now }
    {
        match &self.held {
            Held::Ready(ready) => ready.row_starts(),
            Held::Waiting(waiting) => waiting.row_starts(),
        }
    }

    /// Whether the entries that are left begin with a row, if there are any.
    pub fn begins_row(&self) -> bool
        ensures { result ≡ begins_row self.now }
    {
        match &self.held {
            Held::Ready(ready) => ready.begins_row(),
            Held::Waiting(waiting) => waiting.begins_row(),
        }
    }
}
