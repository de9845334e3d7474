//! The lines of a query over the rows of a group.

ghost use Rattle.std.specs.Prelude.{◌≡◌, ◌++◌, OnOk, OnErr};
ghost use Rattle.std.specs.Option.{option_map};
ghost use Rattle.json_tree.specs.View.{view};
ghost use Rattle.path_query.specs.Answer.{row_text};
ghost use Rattle.query_tree.specs.Asked.{query_of};
ghost use Rattle.shred_schema.specs.Lawful.{IsWellFormed};
ghost use Rattle.shred_schema.specs.Views.{group_of};
ghost use Rattle.group_reading.specs.RowsAhead.{StandsFor};
ghost use Rattle.group_lines.specs.Lines.{rows_left, PrintsRows, AppendsRows};

use group_reading::{GroupFault, GroupRows};
use json_tree::Tree;
use path_query::print_row;
use query_tree::Query;
use shred_schema::{Column, Mask};
use std::alloc::Global;
use vs_bytes::{NoMemory, Refused};

// Appends the line of a row, if it has one.
fn print_taken(into: &mut Vec<u8>, query: &Query, row: Option<Tree>) -> Result<(), NoMemory>
    ensures ok { OnOk result (into.new.items ≡ into.old.items ++ row_text (query_of query.now) (option_map view row)) }
    ensures err { OnErr result (into.new.items ≡ into.old.items) }
{
    print_row(into, query, row.as_ref())
}

// Appends the lines. After a violation lines of the rows before it stand there.
fn append_rows(
    alloc: Global,
    into: &mut Vec<u8>,
    rows: &mut GroupRows,
    column: &Column,
    mask: &Mask,
    query: &Query,
) -> Result<(), Refused<GroupFault>>
    requires well { IsWellFormed (group_of column.now.node) }
    requires stands { StandsFor column.now.optional (group_of column.now.node) mask.now rows.old }
    ensures { AppendsRows (query_of query.now) (rows_left column.now.optional (group_of column.now.node) mask.now rows.old) into.old.items into.new.items result }
{
    loop {
        match rows.next(alloc, column, mask) {
            Ok(Some(row)) => match print_taken(into, query, row) {
                Ok(()) => {}
                Err(_) => return Err(Refused::NoMemory),
            },
            Ok(None) => return Ok(()),
            Err(refusal) => return Err(refusal),
        }
    }
}

/// Appends the lines of a query over the rows of a group, or answers the first rule that they violate. After an `Err`
/// nothing is appended.
pub fn print_rows(
    alloc: Global,
    into: &mut Vec<u8>,
    rows: GroupRows,
    column: &Column,
    mask: &Mask,
    query: &Query,
) -> Result<(), Refused<GroupFault>>
    requires well { IsWellFormed (group_of column.now.node) }
    requires stands { StandsFor column.now.optional (group_of column.now.node) mask.now rows }
    ensures { PrintsRows (query_of query.now) (rows_left column.now.optional (group_of column.now.node) mask.now rows) into.old.items into.new.items result }
{
    let mut rows = rows;
    let before = into.len();
    match append_rows(alloc, into, &mut rows, column, mask, query) {
        Ok(()) => Ok(()),
        Err(refusal) => {
            into.truncate(before);
            Err(refusal)
        }
    }
}
