//! Rows taken from the entries of their leaves.

ghost use Rattle.std.specs.Prelude.{◌≡◌, ◌+◌, ◌*◌, ◌^◌, ◌<◌, ◌≤◌, length, IfOk};
ghost use Rattle.shred_schema.specs.Groups.{width, height};
ghost use Rattle.shred_schema.specs.Lawful.{HasLeaves, max_leaves, max_nesting};
ghost use Rattle.shred_schema.specs.Views.{group_of, row_rec_of};
ghost use Rattle.vs_bytes.specs.Outcome.{Reads};
ghost use Rattle.vs_bytes.specs.declared.leaf_columns.Cell.TheVariants as leaf_cell;
ghost use Rattle.record_assembly.specs.Reading.{is_null, meta_read};
ghost use Rattle.column_assembly.specs.Leaves.{heads, Passed};
ghost use Rattle.row_assembler.specs.ProjectedRows.{meta_width, present_kept, row_kept};

use column_assembly::{Cursor, take_nulls, take_value};
use record_taking::{Levels, take_record};
use shred_schema::{Node, RowRecord, Slot};
use std::alloc::Global;
use vs_bytes::{Absent, Bytes, Refused};

/// Takes a row of all leaves; `optional` says that it may be absent, and `meta` that its first leaf is the metadata.
///
/// `Absent` exactly where no row has the entries; then how far the leaves are taken is open.
pub(crate) fn take_row(
    alloc: Global,
    cursors: &mut [Cursor],
    optional: bool,
    meta: bool,
    node: &Node,
) -> Result<RowRecord, Refused<Absent>>
    requires some { 1 ≤ length cursors.old }
    requires leaves { HasLeaves (group_of node.now) }
    requires all { length cursors.old ≡ meta_width meta + width (group_of node.now) }
    requires short { length cursors.old ≤ max_leaves }
    requires deep { height (group_of node.now) ≤ max_nesting + 1 }
    ensures read { Reads row_rec_of result (row_kept meta optional (group_of node.now) (heads 0 cursors.old)) }
    ensures passed { IfOk result (λ row. Passed cursors.old cursors.new 0 (length cursors.old) 0) }
{
    if !optional {
        return take_present(alloc, cursors, meta, node, 0);
    }
    if is_null(cursors) {
        let end = cursors.len();
        if !take_nulls(cursors, 0, end, 0, 0, 0) {
            return Err(Refused::Fault(Absent));
        }
        return Ok(RowRecord::Absent);
    }
    take_present(alloc, cursors, meta, node, 1)
}

/// Whether the first leaf says that a row is absent.
fn is_null(cursors: &[Cursor]) -> bool
    requires { 1 ≤ length cursors.now }
    ensures { result ≡ is_null 0 0 (heads 0 cursors.now 0) }
{
    cursors[0].is_null(0, 0, 0)
}

/// Takes a row that is there; `def` is the definition level that it reaches.
fn take_present(
    alloc: Global,
    cursors: &mut [Cursor],
    meta: bool,
    node: &Node,
    def: u16,
) -> Result<RowRecord, Refused<Absent>>
    requires leaves { HasLeaves (group_of node.now) }
    requires all { length cursors.old ≡ meta_width meta + width (group_of node.now) }
    requires short { length cursors.old ≤ max_leaves }
    requires deep { height (group_of node.now) ≤ max_nesting + 1 }
    requires level { def ≤ 1 }
    ensures read { Reads row_rec_of result (present_kept meta (group_of node.now) def (heads 0 cursors.old)) }
    ensures passed { IfOk result (λ row. Passed cursors.old cursors.new 0 (length cursors.old) 0) }
{
    let bytes = take_meta(cursors, meta, def)?;
    let first = meta_width(meta);
    let levels = Levels {
        rep: 0,
        lists: 0,
        def,
    };
    let (found, _) = take_record(alloc, cursors, first, node, levels)?;
    Ok(RowRecord::Present {
        meta: bytes,
        rec: found,
    })
}

/// How many leaves stand before those of the node.
fn meta_width(meta: bool) -> usize
    ensures { result ≡ meta_width meta }
{
    if meta { 1 } else { 0 }
}

/// Takes the metadata of a row, if it is read.
fn take_meta(cursors: &mut [Cursor], meta: bool, def: u16) -> Result<Bytes, Refused<Absent>>
    requires inside { meta_width meta ≤ length cursors.old }
    requires level { def ≤ 1 }
    ensures read { Reads (λ bytes. bytes) result (meta_read meta 0 def (heads 0 cursors.old 0)) }
    ensures passed { IfOk result (λ bytes. Passed cursors.old cursors.new 0 (meta_width meta) 0) }
{
    if !meta {
        return Ok(Bytes::new());
    }
    match take_value(cursors, 0, Slot::Required, 0, 0, def) {
        Some(Some(bytes)) => Ok(bytes),
        _ => Err(Refused::Fault(Absent)),
    }
}
