//! Records made and read, again and again.

ghost use Rattle.std.specs.Prelude.{◌≤◌, length};
ghost use Rattle.json_tree.specs.Text.{text_of};
ghost use Rattle.json_tree.specs.Valid.{IsValid};
ghost use Rattle.json_tree.specs.View.{view};
ghost use Rattle.variant_write.specs.Conditions.{max_text_len};
ghost use Rattle.shred_schema.specs.Lawful.{AllWritten, IsWellFormed};
ghost use Rattle.shred_schema.specs.Shapes.{RowHasShape};
ghost use Rattle.shred_schema.specs.Views.{group_of, row_rec_of};

use json_tree::Tree;
use shred_schema::{Column, Mask, Node, RowRecord, width};
use shredder::shred;
use std::alloc::Global;
use test_records::{WIDTHS, full_mask, shredded_row};
use unshredder::Reading;
use variant_meta::KnownMeta;
use variant_write::dictionary_of;
use vs_bytes::{NoMemory, Refused};

/// Shreds a tree so often. Answers how many records were made.
pub(crate) fn shred_often(
    alloc: Global,
    node: &Node,
    tree: &Tree,
    turns: u32,
) -> Result<usize, NoMemory>
    requires written { AllWritten (group_of node.now) }
    requires short { length (text_of (view tree.now)) ≤ max_text_len }
{
    let names = dictionary_of(alloc, tree)?;
    let mut count: usize = 0;
    for _turn in 0..turns {
        let made = shred(alloc, node, tree, &names, WIDTHS)?;
        if made.typed.is_some() || made.value.is_some() {
            count = count.saturating_add(1);
        }
    }
    Ok(count)
}

// A mask that reads one of so many leaves.
fn one_leaf(alloc: Global, leaves: usize, leaf: usize) -> Result<Mask, NoMemory> {
    let mut mask = Mask::new(alloc);
    for k in 0..leaves {
        mask.push(k == leaf)?;
    }
    Ok(mask)
}

// Reads a row so often. Answers how often that gave a value.
fn read(
    alloc: Global,
    column: &Column,
    row: &RowRecord,
    mask: &Mask,
    turns: u32,
) -> Result<usize, NoMemory>
    requires column { IsWellFormed (group_of column.now.node) }
    requires row { RowHasShape (group_of column.now.node) (row_rec_of row.now) }
{
    let reading = Reading::new(alloc, column, mask)?;
    let mut known = KnownMeta::new(alloc);
    let mut count: usize = 0;
    for _turn in 0..turns {
        match reading.row(alloc, column, row, mask, &mut known) {
            Ok(Some(_)) => count = count.saturating_add(1),
            Ok(None) => {}
            Err(Refused::NoMemory) => return Err(NoMemory),
            Err(Refused::Fault(_)) => {}
        }
    }
    Ok(count)
}

/// Reads the row record of a tree so often, with one leaf, or with each. Answers how often that gave a value.
pub(crate) fn read_often(
    alloc: Global,
    node: Node,
    tree: &Tree,
    leaf: Option<usize>,
    turns: u32,
) -> Result<usize, NoMemory>
    requires written { AllWritten (group_of node) }
    requires well { IsWellFormed (group_of node) }
    requires valid { IsValid (view tree.now) }
    requires short { length (text_of (view tree.now)) ≤ max_text_len }
{
    let row = shredded_row(alloc, &node, tree)?;
    let leaves = 1 + width(&node);
    let mask = match leaf {
        Some(leaf) => one_leaf(alloc, leaves, leaf)?,
        None => full_mask(alloc, leaves)?,
    };
    let column = Column {
        optional: true,
        node,
    };
    read(alloc, &column, &row, &mask, turns)
}
