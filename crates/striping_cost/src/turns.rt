//! Rows split, and put together again.

ghost use Rattle.std.specs.Prelude.{◌≡◌, ◌+◌, false, map, length, IfOk};
ghost use Rattle.std.specs.List.{AllByRecursion};
ghost use Rattle.shred_schema.specs.Groups.{width};
ghost use Rattle.shred_schema.specs.Lawful.{IsWellFormed};
ghost use Rattle.shred_schema.specs.Ranges.{reads, none_read};
ghost use Rattle.shred_schema.specs.Shapes.{RowIsOf};
ghost use Rattle.shred_schema.specs.Views.{group_of, row_rec_of};
ghost use Rattle.row_assembler.specs.Assembly.{IsFor};

use crate::filling::filled;
use level_striping::{Stripes, stripe};
use row_assembler::{Assembler, reads_any};
use schema_parsing::parse_schema;
use shred_schema::{Column, Mask, RowList, RowRecord, width};
use std::alloc::Global;
use vs_bytes::{Bytes, EntryList, NoMemory, Refusal, Refused, Rule};

const ROWS: usize = 2000;

/// Which leaves are read.
#[derive(Clone, Copy, Drop)]
pub(crate) enum Reading {
    /// All of them.
    All,
    /// The third one.
    One,
}

// The column of a schema.
fn column_of(alloc: Global, schema: &str) -> Result<Column, NoMemory>
    ensures { IfOk result (λ column. IsWellFormed (group_of column.node)) }
{
    match parse_schema(alloc, schema) {
        Ok(node) => Ok(Column {
            optional: true,
            node,
        }),
        Err(_) => Err(NoMemory),
    }
}

fn rows_of(alloc: Global, column: &Column) -> Result<RowList, NoMemory>
    ensures { IfOk result (λ rows. AllByRecursion (RowIsOf column.now.optional (group_of column.now.node)) (map row_rec_of rows)) }
{
    let mut rows = RowList::new(alloc);
    for _row in 0..ROWS {
        rows.push(RowRecord::Present {
            meta: Bytes::from_slice(alloc, &[17, 0, 0])?,
            rec: filled(alloc, &column.node)?,
        })?;
    }
    Ok(rows)
}

fn entry_count(stripes: &Stripes) -> usize {
    let mut count: usize = 0;
    for list in stripes.as_slice() {
        count = count.saturating_add(list.len());
    }
    count
}

/// Splits rows so often. Answers how many entries they have.
pub(crate) fn striped(alloc: Global, schema: &str, count: u32) -> Result<usize, Refusal> {
    let column = column_of(alloc, schema)?;
    let rows = rows_of(alloc, &column)?;
    let mut entries: usize = 0;
    for _turn in 0..count {
        let stripes = stripe(alloc, &column, &rows)?;
        entries = entry_count(&stripes);
    }
    Ok(entries)
}

// All leaves, or the third one.
fn mask_of(alloc: Global, leaves: usize, reading: Reading) -> Result<Mask, NoMemory>
    ensures { IfOk result (λ mask. length mask ≡ leaves) }
{
    let mut mask = Mask::new(alloc);
    for leaf in 0..leaves {
        let read = match reading {
            Reading::All => true,
            Reading::One => leaf == 3,
        };
        mask.push(read)?;
    }
    Ok(mask)
}

// Hands the entries of the leaves that are read to an assembler, and answers how many there are.
fn feed_all(
    alloc: Global,
    assembler: &mut Assembler,
    column: &Column,
    mask: &Mask,
    stripes: Stripes,
) -> Result<usize, NoMemory>
    requires column { IsFor assembler.old column.now.optional (group_of column.now.node) mask.now }
    requires leaves { length mask.now ≡ 1 + width (group_of column.now.node) }
{
    let read = mask.as_slice();
    let mut lists = stripes.into_vec();
    let mut entries: usize = 0;
    for leaf in 0..read.len() {
        if read[leaf] && leaf < lists.len() {
            let list = &mut lists[leaf];
            entries = entries.saturating_add(list.len());
            assembler.feed(alloc, leaf, list)?;
        }
    }
    Ok(entries)
}

// Takes all rows, and lets them go.
fn pass_rows(alloc: Global, assembler: &mut Assembler) -> Result<(), Refusal> {
    for _row in 0..u64::MAX {
        match assembler.next_row(alloc) {
            Ok(Some(_)) => {}
            Ok(None) => return Ok(()),
            Err(refusal) => return Err(refusal),
        }
    }
    Ok(())
}

fn put_together(
    alloc: Global,
    column: &Column,
    mask: &Mask,
    stripes: Stripes,
) -> Result<usize, Refusal>
    requires column { IsWellFormed (group_of column.now.node) }
    requires mask { length mask.now ≡ 1 + width (group_of column.now.node) }
    requires some { none_read (reads mask.now) 0 (1 + width (group_of column.now.node)) ≡ false }
{
    let mut assembler = Assembler::new(alloc, column, mask)?;
    let entries = feed_all(alloc, &mut assembler, column, mask, stripes)?;
    assembler.end();
    pass_rows(alloc, &mut assembler)?;
    Ok(entries)
}

/// Splits rows and puts them together again so often. Answers how many entries were read.
pub(crate) fn assembled(
    alloc: Global,
    schema: &str,
    reading: Reading,
    count: u32,
) -> Result<usize, Refusal> {
    let column = column_of(alloc, schema)?;
    let rows = rows_of(alloc, &column)?;
    let mask = mask_of(alloc, 1 + width(&column.node), reading)?;
    if !reads_any(mask.as_slice()) {
        return Err(Refused::Fault(Rule::SchemaShape));
    }
    let mut entries: usize = 0;
    for _turn in 0..count {
        let stripes = stripe(alloc, &column, &rows)?;
        entries = put_together(alloc, &column, &mask, stripes)?;
    }
    Ok(entries)
}
