//! Row records and masks.

ghost use Rattle.std.specs.Prelude.{◌≡◌, ◌≤◌, length, IfOk};
ghost use Rattle.json_tree.specs.Text.{text_of};
ghost use Rattle.json_tree.specs.Valid.{IsValid};
ghost use Rattle.json_tree.specs.View.{view};
ghost use Rattle.variant_write.specs.Conditions.{max_text_len};
ghost use Rattle.shred_schema.specs.Lawful.{AllWritten};
ghost use Rattle.shred_schema.specs.Shapes.{RowHasShape};
ghost use Rattle.shred_schema.specs.Views.{group_of, row_rec_of};

use json_tree::Tree;
use shred_schema::{Mask, Node, RowRecord};
use shredder::shred;
use std::alloc::Global;
use variant_write::{Widths, dictionary_of};
use vs_bytes::{Bytes, NoMemory};

/// Numbers of as few bytes as can be.
pub const WIDTHS: Widths = Widths { offset: 1, id: 1 };

/// The row record of a tree.
#[tactic(auto, using(crate::proofs::Facts::shredded_shape))]
pub fn shredded_row(alloc: Global, node: &Node, tree: &Tree) -> Result<RowRecord, NoMemory>
    requires written { AllWritten (group_of node.now) }
    requires valid { IsValid (view tree.now) }
    requires short { length (text_of (view tree.now)) ≤ max_text_len }
    ensures { IfOk result (λ row. RowHasShape (group_of node.now) (row_rec_of row)) }
{
    let names = dictionary_of(alloc, tree)?;
    let rec = shred(alloc, node, tree, &names, WIDTHS)?;
    let mut meta = Vec::new(alloc);
    names.write(&mut meta, WIDTHS.offset)?;
    Ok(RowRecord::Present {
        meta: Bytes::from_vec(meta)?,
        rec,
    })
}

/// A mask that reads each of so many leaves.
pub fn full_mask(alloc: Global, leaves: usize) -> Result<Mask, NoMemory> {
    let mut mask = Mask::new(alloc);
    for _leaf in 0..leaves {
        mask.push(true)?;
    }
    Ok(mask)
}
