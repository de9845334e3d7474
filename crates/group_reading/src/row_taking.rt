//! The next row's record, from the assembler and the chunks of its leaves.

ghost use Rattle.std.specs.Prelude.{◌≡◌, ◌+◌, ℕ, true, false};
ghost use Rattle.shred_schema.specs.Groups.{width};
ghost use Rattle.shred_schema.specs.Ranges.{is_among, reads};
ghost use Rattle.shred_schema.specs.Views.{group_of};
ghost use Rattle.record_assembly.specs.Cuts.{is_nil};
ghost use Rattle.group_reading.specs.Filling.{joined, Held, Takes};

use crate::leaf_filling::fill_leaves;
use chunks::ChunkEntries;
use row_assembler::Assembler;
use shred_schema::{Column, Mask, RowRecord};
use std::alloc::Global;
use vs_bytes::Refusal;

// The record of the row for which no leaf has more to wait for: all that is left is fed, and the entries end.
fn take_last(
    alloc: Global,
    assembler: &mut Assembler,
    chunks: &mut [ChunkEntries],
    column: &Column,
    mask: &Mask,
) -> Result<RowRecord, Refusal>
    requires held { Held column.now.optional (group_of column.now.node) mask.now assembler.old chunks.old }
    requires some { (j : ℕ) → is_among j 0 (1 + width (group_of column.now.node)) ≡ true → reads mask.now j ≡ true → is_nil (joined assembler.old chunks.old j) ≡ false }
    ensures { Takes column.now.optional (group_of column.now.node) mask.now (joined assembler.old chunks.old) assembler.new chunks.new result }
{
    fill_leaves(alloc, assembler, chunks, column, mask, true)?;
    assembler.end();
    match assembler.next_row(alloc) {
        Ok(Some(row)) => Ok(row),
        Ok(None) => unreachable!(),
        Err(refusal) => Err(refusal),
    }
}

// The next row's record, for which more entries are fed.
fn take_filled(
    alloc: Global,
    assembler: &mut Assembler,
    chunks: &mut [ChunkEntries],
    column: &Column,
    mask: &Mask,
) -> Result<RowRecord, Refusal>
    requires held { Held column.now.optional (group_of column.now.node) mask.now assembler.old chunks.old }
    requires some { (j : ℕ) → is_among j 0 (1 + width (group_of column.now.node)) ≡ true → reads mask.now j ≡ true → is_nil (joined assembler.old chunks.old j) ≡ false }
    ensures { Takes column.now.optional (group_of column.now.node) mask.now (joined assembler.old chunks.old) assembler.new chunks.new result }
{
    fill_leaves(alloc, assembler, chunks, column, mask, false)?;
    match assembler.next_row(alloc) {
        Ok(Some(row)) => Ok(row),
        Ok(None) => take_last(alloc, assembler, chunks, column, mask),
        Err(refusal) => Err(refusal),
    }
}

/// The next row's record; entries are fed where some leaf that is read hasn't all of that row.
pub(crate) fn take_row(
    alloc: Global,
    assembler: &mut Assembler,
    chunks: &mut [ChunkEntries],
    column: &Column,
    mask: &Mask,
) -> Result<RowRecord, Refusal>
    requires held { Held column.now.optional (group_of column.now.node) mask.now assembler.old chunks.old }
    requires some { (j : ℕ) → is_among j 0 (1 + width (group_of column.now.node)) ≡ true → reads mask.now j ≡ true → is_nil (joined assembler.old chunks.old j) ≡ false }
    ensures { Takes column.now.optional (group_of column.now.node) mask.now (joined assembler.old chunks.old) assembler.new chunks.new result }
{
    match assembler.next_row(alloc) {
        Ok(Some(row)) => Ok(row),
        Ok(None) => take_filled(alloc, assembler, chunks, column, mask),
        Err(refusal) => Err(refusal),
    }
}
