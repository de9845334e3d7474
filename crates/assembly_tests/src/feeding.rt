//! Entries of a column's leaves, fed to an assembler.

ghost use Rattle.std.specs.Prelude.{◌≡◌, ◌+◌, ◌<◌, true, length};
ghost use Rattle.std.specs.Str.{IsUtf8};
ghost use Rattle.shred_schema.specs.Groups.{width};
ghost use Rattle.shred_schema.specs.Ranges.{reads};
ghost use Rattle.shred_schema.specs.Views.{group_of};
ghost use Rattle.row_assembler.specs.Assembly.{IsFor};

use crate::entry_texts::push_entry;
use crate::row_texts::push_row;
use row_assembler::Assembler;
use shred_schema::{Column, Mask};
use std::alloc::Global;
use test_rows::Wrong;
use vs_bytes::{EntryList, Refusal, Refused};

/// How entries come.
#[derive(Clone, Copy, Drop)]
pub(crate) enum Pieces {
    /// All entries of a leaf at once.
    Whole,
    /// One at a time.
    Single,
}

// Entries of one leaf.
fn feed_leaf(
    alloc: Global,
    assembler: &mut Assembler,
    column: &Column,
    mask: &Mask,
    leaf: usize,
    entries: &str,
    pieces: Pieces,
) -> Result<(), Wrong>
    requires column { IsFor assembler.old column.now.optional (group_of column.now.node) mask.now }
    requires inside { leaf < 1 + width (group_of column.now.node) }
    requires read { reads mask.now leaf ≡ true }
    ensures { IsFor assembler.new column.now.optional (group_of column.now.node) mask.now }
{
    let mut list = EntryList::new(alloc);
    for entry in entries.split(' ') {
        push_entry(alloc, &mut list, entry)?;
        if let Pieces::Single = pieces {
            assembler.feed(alloc, leaf, &mut list)?;
            list = EntryList::new(alloc);
        }
    }
    assembler.feed(alloc, leaf, &mut list)?;
    Ok(())
}

// The entries of one leaf, and those of the others.
fn split_leaf(entries: &str) -> (&str, &str)
    ensures first { IsUtf8 result.0.now }
    ensures others { IsUtf8 result.1.now }
{
    match entries.split_once(" / ") {
        Some(parts) => parts,
        None => (entries, ""),
    }
}

/// The entries of all leaves that the mask reads; those of one leaf and the next have ` / ` between them.
pub(crate) fn feed_leaves(
    alloc: Global,
    assembler: &mut Assembler,
    column: &Column,
    mask: &Mask,
    entries: &str,
    pieces: Pieces,
) -> Result<(), Wrong>
    requires column { IsFor assembler.old column.now.optional (group_of column.now.node) mask.now }
    requires leaves { length mask.now ≡ 1 + width (group_of column.now.node) }
    ensures { IsFor assembler.new column.now.optional (group_of column.now.node) mask.now }
{
    let read = mask.as_slice();
    let mut left = entries;
    for leaf in 0..read.len() {
        if read[leaf] {
            let (first, others) = split_leaf(left);
            feed_leaf(alloc, assembler, column, mask, leaf, first, pieces)?;
            left = others;
        }
    }
    Ok(())
}

/// Puts the rows that are there after others, and then `waits`, or the rule that is violated.
pub(crate) fn push_rows(
    alloc: Global,
    text: &mut String,
    assembler: &mut Assembler,
) -> Result<(), Wrong> {
    for _turn in 0..u64::MAX {
        match assembler.next_row(alloc) {
            Ok(Some(row)) => push_row(alloc, text, &row)?,
            Ok(None) => return Ok(text.push_str("waits")?),
            Err(refusal) => return push_rule(text, refusal),
        }
    }
    Ok(())
}

fn push_rule(text: &mut String, refusal: Refusal) -> Result<(), Wrong> {
    match refusal {
        Refused::Fault(rule) => Ok(text.push_str(rule.name())?),
        Refused::NoMemory => Err(Wrong::NoMemory),
    }
}
