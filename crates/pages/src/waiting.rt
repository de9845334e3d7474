//! Entries of a judged page, which are made as they are asked for.

ghost use Rattle.std.specs.Prelude.{◌≡◌, ◌++◌, ◌<◌, true, length, min, Ok, Err, IfOk, OnErr};
ghost use Rattle.vs_bytes.specs.Outcome.{Makes};
ghost use Rattle.vs_bytes.specs.declared.leaf_columns.Phys.TheVariants as phys;
ghost use Rattle.pages.specs.ReadInTurn.{entries_at_once};
ghost use Rattle.pages.specs.RowStarts.{row_starts, begins_row};
ghost use Rattle.pages.specs.Shown.{shown};
ghost use Rattle.pages.specs.Waiting.{judged_leaf};

use crate::joining::piece;
use crate::judging::judge;
use crate::levels::Levels;
use std::alloc::Global;
use std::marker::Model;
use vs_bytes::{Bytes, EntryList, Leaf, NoMemory, Prim, Refusal, Refused, rest};

/// The entries of a page that was judged, which are made as they are asked for. Contracts see those that are still to
/// come.
#[derive(Drop)]
pub(crate) struct Waiting {
    leaf: Leaf,
    reps: Levels,
    defs: Levels,
    // How many entries the page has, and how many of them were given.
    count: usize,
    at: usize,
    // The bytes of the values, and how many of them were read.
    values: Bytes,
    used: usize,
}

impl Model for Waiting {
    ghost use Rattle.std.specs.Prelude.{List, drop};
    ghost use Rattle.vs_bytes.specs.declared.leaf_columns.Entry.{Entry};
    ghost use Rattle.pages.specs.Shown.{shown};
    ghost use Rattle.pages.specs.Waiting.{left, made, IsJudged};

    ghost Value = { List Entry };

    ghost view = { λ w. made (left w.leaf (drop w.at (shown w.reps)) (drop w.at (shown w.defs)) (drop w.used w.values)) };

    ghost invariant = { λ w. IsJudged w.leaf (shown w.reps) (shown w.defs) w.count w.at w.values w.used };
}

// How values of a leaf are read that were judged: texts as bytes, which needn't be judged again.
fn judged_leaf(leaf: &Leaf) -> Leaf
    ensures { result ≡ judged_leaf leaf.now }
{
    match leaf.prim {
        Prim::Text => Leaf {
            prim: Prim::Raw,
            ..*leaf
        },
        _ => *leaf,
    }
}

impl Waiting {
    /// The entries of `count` levels of both kinds, and of the values at the front of `bytes`; or the first rule that the
    /// values violate.
    #[tactic(auto, using(crate::proofs::Judged::judged_whole, crate::proofs::Judged::judged_bad, crate::proofs::Judged::judged_good))]
    pub(crate) fn of(
        alloc: Global,
        leaf: &Leaf,
        count: usize,
        reps: Levels,
        defs: Levels,
        bytes: &[u8],
    ) -> Result<Waiting, Refusal>
        requires other { leaf.now.phys ≡ phys.Boolean → ⊥ }
        requires reps { length (shown reps) ≡ count }
        requires defs { length (shown defs) ≡ count }
        ensures { Makes (λ entries. entries) result (entries_at_once leaf.now (shown reps) (shown defs) bytes.now) }
    {
        match judge(leaf, defs.count(leaf.def), bytes) {
            Ok(()) => (),
            Err(rule) => return Err(Refused::Fault(rule)),
        }
        let values = match Bytes::from_slice(alloc, bytes) {
            Ok(values) => values,
            Err(_) => return Err(Refused::NoMemory),
        };
        Ok(Waiting {
            leaf: judged_leaf(leaf),
            reps,
            defs,
            count,
            at: 0,
            values,
            used: 0,
        })
    }

    /// The next entries, `most` of them or as many as are left. After an `Err` nothing has changed.
    #[tactic(auto, using(crate::proofs::Judged::piece_taken, crate::proofs::Judged::still_good, crate::proofs::Judged::none_left))]
    pub(crate) fn take(&mut self, alloc: Global, most: usize) -> Result<EntryList, NoMemory>
        ensures taken { IfOk result (λ entries. self.old ≡ entries ++ self.new) }
        ensures count { IfOk result (λ entries. length entries ≡ min most (length self.old)) }
        ensures err { OnErr result (self.new ≡ self.old) }
    {
        let end = self.at + most.min(self.count - self.at);
        let values = rest(self.values.as_slice(), self.used);
        let (entries, used) = piece(
            alloc, &self.leaf, &self.reps, &self.defs, self.at, end, values,
        )?;
        self.at = end;
        self.used += used;
        Ok(entries)
    }

    /// How many entries are left.
    pub(crate) fn len(&self) -> usize
        ensures { result ≡ length self.now }
    {
        self.count - self.at
    }

    /// How many rows begin in the entries that are left.
    pub(crate) fn row_starts(&self) -> usize
        ensures { result ≡ row_starts self.now }
    {
        self.reps.zeros_from(self.at)
    }

    /// Whether the entries that are left begin with a row, if there are any.
    pub(crate) fn begins_row(&self) -> bool
        ensures { result ≡ begins_row self.now }
    {
        if self.at == self.count {
            return true;
        }
        self.reps.at(self.at) == 0
    }
}
