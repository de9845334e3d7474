//! Rows.

ghost use Rattle.std.specs.Prelude.{◌≡◌, ℕ, ◌+◌, ◌≤◌, Bool, IfOk};
ghost use Rattle.std.specs.Option.{option_map};
ghost use Rattle.json_tree.specs.View.{view};
ghost use Rattle.vs_bytes.specs.Outcome.{Gives, Makes};
ghost use Rattle.variant_meta.specs.MetaRefs.{names_of};
ghost use Rattle.shred_schema.specs.Lawful.{IsWellFormed};
ghost use Rattle.shred_schema.specs.Ranges.{reads};
ghost use Rattle.shred_schema.specs.Shapes.{HasShape, RowHasShape};
ghost use Rattle.shred_schema.specs.Views.{group_of, rec_of, row_rec_of};
ghost use Rattle.unshredder.specs.Readings.{IsReading, UnderSome};
ghost use Rattle.unshredder.specs.Rows.{has_value, names_needed, row_seen};

use crate::alone::fields_alone;
use crate::needing::has_value;
use crate::readings::{Reading, reading_of};
use crate::records::{members_alone, seen};
use json_tree::Tree;
use shred_schema::{Column, Mask, Node, Record, RowRecord};
use std::alloc::Global;
use variant_meta::{KnownMeta, MetaRef};
use vs_bytes::{NoMemory, Refusal, Rule};

// The names of a row's metadata, where they are needed.
fn names_needed<'a>(
    needed: bool,
    meta: &'a [u8],
    known: &mut KnownMeta,
) -> Result<MetaRef<'a>, Rule>
    ensures { Gives names_of result (names_needed needed meta.now) }
{
    if needed {
        known.view(meta)
    } else {
        Ok(MetaRef::without_names())
    }
}

// Whether a row's names are needed: `has_value`, whose first test is made here without a call.
#[inline(always)]
#[tactic(auto, using(crate::proofs::NoValueRead::no_value))]
fn is_needed(reading: &Reading, node: &Node, rec: &Record) -> bool
    requires shape { HasShape (group_of node.now) (rec_of rec.now) }
    requires reading { UnderSome (λ mask leaf. IsReading mask (group_of node.now) leaf reading.now) }
    ensures { (mask : ℕ → Bool) (leaf : ℕ) → IsReading mask (group_of node.now) leaf reading.now → result ≡ has_value mask (group_of node.now) leaf (rec_of rec.now) }
{
    if !reading.values {
        return false;
    }
    has_value(reading, node, rec)
}

impl Reading {
    /// How the rows of a column are read under a mask, which says of each leaf whether it is read, in their order.
    pub fn new(alloc: Global, column: &Column, mask: &Mask) -> Result<Reading, NoMemory>
        requires { IsWellFormed (group_of column.now.node) }
        ensures { IfOk result (λ reading. IsReading (reads mask.now) (group_of column.now.node) 1 reading) }
    {
        reading_of(alloc, mask.as_slice(), &column.node, 1, 0)
    }

    /// The row of a row record, as `unshred` gives it. The column and the mask are those that `new` was given. `known`
    /// keeps the metadata of the row before.
    #[tactic(auto, unfolding(crate::specs::Rows::row_seen))]
    pub fn row(
        &self,
        alloc: Global,
        column: &Column,
        row: &RowRecord,
        mask: &Mask,
        known: &mut KnownMeta,
    ) -> Result<Option<Tree>, Refusal>
        requires column { IsWellFormed (group_of column.now.node) }
        requires reading { IsReading (reads mask.now) (group_of column.now.node) 1 self.now }
        requires row { RowHasShape (group_of column.now.node) (row_rec_of row.now) }
        ensures { Makes (option_map view) result (row_seen (reads mask.now) (group_of column.now.node) (row_rec_of row.now)) }
    {
        match row {
            RowRecord::Absent => Ok(None),
            RowRecord::Present { meta, rec } => {
                let needed = is_needed(self, &column.node, rec);
                let names = names_needed(needed, meta.as_slice(), known)?;
                // An object of which only the typed part counts. `seen` tells the same of it, with more copies.
                if let Some(alone) = fields_alone(self, &column.node, rec) {
                    let members = members_alone(alloc, self, &names, alone, 0)?;
                    return Ok(Some(Tree::Object(members)));
                }
                match seen(alloc, self, &names, &column.node, 0, rec)? {
                    Some(tree) => Ok(Some(tree)),
                    None => Ok(Some(Tree::Null)),
                }
            }
        }
    }
}

/// The row of a row record, or the first rule that it violates (VariantShredding.md, "Reconstructing a Shredded
/// Variant"). `None` where the row is absent.
///
/// `mask` says of each leaf whether it is read, in their order. A value or typed part that isn't read counts as missing,
/// and no rule is tested that rests on it. The metadata is judged wherever a value that is read is there, so a mask that
/// reads a value reads leaf 0 too.
///
/// For many rows of a column, make a `Reading` once.
pub fn unshred(
    alloc: Global,
    column: &Column,
    row: &RowRecord,
    mask: &Mask,
) -> Result<Option<Tree>, Refusal>
    requires column { IsWellFormed (group_of column.now.node) }
    requires row { RowHasShape (group_of column.now.node) (row_rec_of row.now) }
    ensures { Makes (option_map view) result (row_seen (reads mask.now) (group_of column.now.node) (row_rec_of row.now)) }
{
    let reading = Reading::new(alloc, column, mask)?;
    reading.row(alloc, column, row, mask, &mut KnownMeta::new(alloc))
}
