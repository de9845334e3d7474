//! The rows of a group, one by one.

ghost use Rattle.std.specs.Prelude.{◌≡◌, ℕ, ◌+◌, ◌<◌, [], true, false, length, slice_index_or, Some, None, Ok, Err, IfOk, OnOk};
ghost use Rattle.std.specs.Option.{option_map};
ghost use Rattle.json_tree.specs.View.{view};
ghost use Rattle.vs_bytes.specs.Outcome.{Makes};
ghost use Rattle.shred_schema.specs.Groups.{width};
ghost use Rattle.shred_schema.specs.Lawful.{IsWellFormed};
ghost use Rattle.shred_schema.specs.Ranges.{is_among, reads, none_read};
ghost use Rattle.shred_schema.specs.Views.{group_of};
ghost use Rattle.record_assembly.specs.Cuts.{is_nil, later_items};
ghost use Rattle.unshredder.specs.Readings.{IsReading};
ghost use Rattle.group_reading.specs.ChunkEntries.{has_rows};
ghost use Rattle.group_reading.specs.GroupRows.{next_seen, rows_seen};
ghost use Rattle.group_reading.specs.RowsAhead.{rows_ahead, StandsFor, at_row, NextRow};
ghost use Rattle.group_reading.specs.Filling.{joined, Held};

use crate::group_faults::{GroupFault, PlaceInGroup};
use crate::row_taking::take_row;
use chunks::ChunkEntries;
use json_tree::Tree;
use row_assembler::Assembler;
use shred_schema::{Column, Mask};
use std::alloc::Global;
use unshredder::Reading;
use variant_meta::KnownMeta;
use vs_bytes::{NoMemory, Refusal, Refused, Sequence};

/// The rows of a row group that are still to come.
#[derive(Drop)]
pub struct GroupRows {
    assembler: Assembler,
    // What the assembler wasn't fed yet.
    leaves: Vec<ChunkEntries>,
    reading: Reading,
    known: KnownMeta,
    row: u64,
    left: u64,
}

// The next row.
#[tactic(auto, using(crate::proofs::NextRows::row_makes, crate::proofs::NextRows::none_makes))]
fn next_row(
    alloc: Global,
    assembler: &mut Assembler,
    chunks: &mut [ChunkEntries],
    reading: &Reading,
    known: &mut KnownMeta,
    column: &Column,
    mask: &Mask,
) -> Result<Option<Tree>, Refusal>
    requires well { IsWellFormed (group_of column.now.node) }
    requires reading { IsReading (reads mask.now) (group_of column.now.node) 1 reading.now }
    requires held { Held column.now.optional (group_of column.now.node) mask.now assembler.old chunks.old }
    requires some { (j : ℕ) → is_among j 0 (1 + width (group_of column.now.node)) ≡ true → reads mask.now j ≡ true → is_nil (joined assembler.old chunks.old j) ≡ false }
    ensures exact { Makes (option_map view) result (next_seen (reads mask.now) column.now.optional (group_of column.now.node) (joined assembler.old chunks.old)) }
    ensures held { OnOk result (Held column.now.optional (group_of column.now.node) mask.now assembler.new chunks.new) }
    ensures after { OnOk result ((j : ℕ) → is_among j 0 (1 + width (group_of column.now.node)) ≡ true → reads mask.now j ≡ true → joined assembler.new chunks.new j ≡ later_items 0 (joined assembler.old chunks.old j)) }
{
    match take_row(alloc, assembler, chunks, column, mask) {
        Ok(row) => reading.row(alloc, column, &row, mask, known),
        Err(refusal) => Err(refusal),
    }
}

// A rule that a row violates, with its place; or no memory.
fn at_row(refusal: Refusal, row: u64) -> Refused<GroupFault>
    ensures { result ≡ at_row refusal row }
{
    match refusal {
        Refused::Fault(rule) => Refused::Fault(GroupFault {
            rule,
            place: PlaceInGroup::Row(row),
        }),
        Refused::NoMemory => Refused::NoMemory,
    }
}

impl GroupRows {
    /// The rows of a group of `rows` rows, by the entries of its leaves. Those of a leaf that isn't read are passed
    /// over. The others are taken from `leaves` in pieces, as rows ask for them.
    pub fn new(
        alloc: Global,
        column: &Column,
        mask: &Mask,
        rows: u64,
        leaves: Sequence<ChunkEntries>,
    ) -> Result<GroupRows, NoMemory>
        requires column { IsWellFormed (group_of column.now.node) }
        requires mask { length mask.now ≡ 1 + width (group_of column.now.node) }
        requires some { none_read (reads mask.now) 0 (1 + width (group_of column.now.node)) ≡ false }
        requires leaves { length leaves ≡ 1 + width (group_of column.now.node) }
        requires rows { (j : ℕ) → is_among j 0 (1 + width (group_of column.now.node)) ≡ true → reads mask.now j ≡ true → has_rows rows (slice_index_or leaves j []) ≡ true }
        ensures stands { IfOk result (λ g. StandsFor column.now.optional (group_of column.now.node) mask.now g) }
        ensures rows { IfOk result (λ g. rows_ahead (reads mask.now) column.now.optional (group_of column.now.node) g ≡ rows_seen (reads mask.now) column.now.optional (group_of column.now.node) rows 0 (λ j. slice_index_or leaves j [])) }
    {
        let reading = Reading::new(alloc, column, mask)?;
        let assembler = Assembler::new(alloc, column, mask)?;
        Ok(GroupRows {
            assembler,
            leaves: leaves.into_vec(),
            reading,
            known: KnownMeta::new(alloc),
            row: 0,
            left: rows,
        })
    }

    /// The next row, or `None` after the last: `None` in it where the row is absent. Or the first rule that the row
    /// violates, with its place. After a rule or no memory the rows aren't taken any more.
    ///
    /// The column and the mask are those that `new` was given.
    pub fn next(
        &mut self,
        alloc: Global,
        column: &Column,
        mask: &Mask,
    ) -> Result<Option<Option<Tree>>, Refused<GroupFault>>
        requires well { IsWellFormed (group_of column.now.node) }
        requires stands { StandsFor column.now.optional (group_of column.now.node) mask.now self.old }
        ensures { NextRow column.now.optional (group_of column.now.node) mask.now self.old self.new result }
    {
        if self.left == 0 {
            return Ok(None);
        }
        match next_row(
            alloc,
            &mut self.assembler,
            &mut self.leaves,
            &self.reading,
            &mut self.known,
            column,
            mask,
        ) {
            Ok(row) => {
                self.left -= 1;
                self.row += 1;
                Ok(Some(row))
            }
            Err(refusal) => Err(at_row(refusal, self.row)),
        }
    }
}
