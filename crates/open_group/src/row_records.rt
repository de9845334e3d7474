//! The records of rows.

ghost use Rattle.std.specs.Prelude.{◌≡◌, ◌≤◌, ◌-◌, ◌^◌, min, length, IfOk, IfSome};
ghost use Rattle.json_tree.specs.Text.{text_of};
ghost use Rattle.json_tree.specs.View.{view};
ghost use Rattle.variant_write.specs.Conditions.{IsWidths, max_text_len};
ghost use Rattle.shred_schema.specs.Lawful.{AllWritten};
ghost use Rattle.shred_schema.specs.Views.{group_of, row_rec_of};
ghost use Rattle.shredder.specs.Shredded.{shred_row};
ghost use Rattle.striping_laws.specs.Rows.{text_len};
ghost use Rattle.open_group.specs.OpenGroups.{row_of};

use json_tree::Tree;
use shred_schema::{Node, RowRecord};
use shredder::shred;
use std::alloc::Global;
use variant_write::{KnownNames, Widths};
use vs_bytes::{Bytes, NoMemory};

// The record of a document: its metadata, and what stands in the column for it.
fn present(
    alloc: Global,
    node: &Node,
    tree: &Tree,
    widths: Widths,
    known: &mut KnownNames,
) -> Result<RowRecord, NoMemory>
    requires node { AllWritten (group_of node.now) }
    requires small { length (text_of (view tree.now)) ≤ max_text_len }
    requires widths { IsWidths widths }
    ensures { IfOk result (λ made. row_rec_of made ≡ shred_row (group_of node.now) (Some (view tree.now)) widths) }
{
    known.renew(alloc, tree, widths.offset)?;
    let names = known.dictionary();
    let rec = shred(alloc, node, tree, names, widths)?;
    Ok(RowRecord::Present {
        meta: Bytes::from_slice(alloc, known.metadata())?,
        rec,
    })
}

/// The record of a row: a document, or none. `known` has the names of a document before it: most documents have the
/// same, and then no dictionary is made and no metadata written.
pub(crate) fn record_of(
    alloc: Global,
    node: &Node,
    row: Option<&Tree>,
    widths: Widths,
    known: &mut KnownNames,
) -> Result<RowRecord, NoMemory>
    requires node { AllWritten (group_of node.now) }
    requires small { IfSome row (λ tree. length (text_of (view tree.now)) ≤ max_text_len) }
    requires widths { IsWidths widths }
    ensures { IfOk result (λ made. row_rec_of made ≡ shred_row (group_of node.now) (row_of row.entry) widths) }
{
    match row {
        None => Ok(RowRecord::Absent),
        Some(tree) => present(alloc, node, tree, widths, known),
    }
}

/// How many bytes the canonical text of a row has. A row without a document has none.
pub(crate) fn row_text_len(row: Option<&Tree>) -> u64
    ensures { result ≡ min (text_len (row_of row.entry)) (2 ^ 64 - 1) }
{
    match row {
        None => 0,
        Some(tree) => json_tree::text_len(tree),
    }
}
