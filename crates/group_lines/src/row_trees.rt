//! The rows of a group.

ghost use Rattle.std.specs.Prelude.{◌≡◌};
ghost use Rattle.vs_bytes.specs.Outcome.{Makes};
ghost use Rattle.shred_schema.specs.Lawful.{IsWellFormed};
ghost use Rattle.shred_schema.specs.Views.{group_of};
ghost use Rattle.group_reading.specs.RowsAhead.{StandsFor};
ghost use Rattle.group_lines.specs.Lines.{rows_left, trees_of};

use group_reading::{GroupFault, GroupRows};
use json_tree::Tree;
use shred_schema::{Column, Mask};
use std::alloc::Global;
use vs_bytes::{Refused, Sequence};

/// Rows in order: `None` for an absent one.
pub type RowTrees = Sequence<Option<Tree>>;

/// The rows of a group, or the first rule that they violate.
pub fn collect_rows(
    alloc: Global,
    rows: GroupRows,
    column: &Column,
    mask: &Mask,
) -> Result<RowTrees, Refused<GroupFault>>
    requires well { IsWellFormed (group_of column.now.node) }
    requires stands { StandsFor column.now.optional (group_of column.now.node) mask.now rows }
    ensures exact { Makes trees_of result (rows_left column.now.optional (group_of column.now.node) mask.now rows) }
{
    let mut rows = rows;
    let mut trees = Sequence::new(alloc);
    loop {
        match rows.next(alloc, column, mask) {
            Ok(Some(row)) => match trees.push(row) {
                Ok(()) => {}
                Err(_) => return Err(Refused::NoMemory),
            },
            Ok(None) => return Ok(trees),
            Err(refusal) => return Err(refusal),
        }
    }
}
