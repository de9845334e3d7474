//! Entries that are there, given in pieces.

ghost use Rattle.std.specs.Prelude.{◌≡◌, ◌++◌, ◌<◌, true, length, min, Ok, Err, IfOk, OnErr};
ghost use Rattle.pages.specs.RowStarts.{row_starts, begins_row};

use std::marker::Model;
use vs_bytes::{Entry, EntryList, NoMemory, Sequence};

/// Entries that are there, the last one first: those that are given come off the end. Contracts see those that are
/// still to come, in their order.
#[derive(Drop)]
pub(crate) struct Ready {
    entries: Vec<Entry>,
}

impl Model for Ready {
    ghost use Rattle.std.specs.Prelude.{List, reverse};
    ghost use Rattle.vs_bytes.specs.declared.leaf_columns.Entry.{Entry};

    ghost Value = { List Entry };

    ghost view = { λ r. reverse r.entries.items };
}

impl Ready {
    /// These entries.
    pub(crate) fn of(entries: EntryList) -> Ready
        ensures { result ≡ entries }
    {
        let mut entries = entries.into_vec();
        entries.reverse();
        Ready { entries }
    }

    /// The next entries, `most` of them or as many as are left. After an `Err` nothing has changed.
    #[tactic(auto, using(crate::proofs::Pieces::piece_taken, crate::proofs::Pieces::piece_count))]
    pub(crate) fn take(&mut self, most: usize) -> Result<EntryList, NoMemory>
        ensures taken { IfOk result (λ entries. self.old ≡ entries ++ self.new) }
        ensures count { IfOk result (λ entries. length entries ≡ min most (length self.old)) }
        ensures err { OnErr result (self.new ≡ self.old) }
    {
        let at = self.entries.len().saturating_sub(most);
        let mut piece = self.entries.split_off(at)?;
        piece.reverse();
        Ok(Sequence::from_vec(piece))
    }

    /// How many entries are left.
    pub(crate) fn len(&self) -> usize
        ensures { result ≡ length self.now }
    {
        self.entries.len()
    }

    /// How many rows begin in the entries that are left.
    #[tactic(auto, using(crate::proofs::Pieces::starts_reversed))]
    pub(crate) fn row_starts(&self) -> usize
        ensures { result ≡ row_starts self.now }
    {
        self.entries.iter().filter(|entry| entry.rep == 0).count()
    }

    /// Whether the entries that are left begin with a row, if there are any.
    #[tactic(auto, using(crate::proofs::Pieces::begins_reversed))]
    pub(crate) fn begins_row(&self) -> bool
        ensures { result ≡ begins_row self.now }
    {
        match self.entries.split_last() {
            None => true,
            Some((entry, _)) => entry.rep == 0,
        }
    }
}
