//! Rows split into entries.

ghost use Rattle.std.specs.Prelude.{◌≡◌, ◌+◌, ◌*◌, ◌^◌, ◌<◌, ◌≤◌, [], ℕ, length, map, slice_index_or, IfOk, OnOk};
ghost use Rattle.std.specs.List.{AllByRecursion};
ghost use Rattle.shred_schema.specs.Groups.{width, kind_width, groups_width, height, kind_height, groups_height, list_of};
ghost use Rattle.shred_schema.specs.Lawful.{IsWellFormed, max_leaves, max_nesting};
ghost use Rattle.shred_schema.specs.Recs.{EachRec, items, recs_from};
ghost use Rattle.shred_schema.specs.Shapes.{IsOf, PartIsOf, FieldsAreOf, RowIsOf};
ghost use Rattle.shred_schema.specs.Views.{group_of, kind_of, groups_of, rec_of, part_of, row_rec_of};
ghost use Rattle.level_striping.specs.Entries.{top_level, entries, part_entries, fields_entries, row_entries, stripes};
ghost use Rattle.level_striping.specs.Gains.{Gains};

use crate::levels::Levels;
use crate::putting::put_nulls;
use crate::values::{put_absent, put_bytes, put_copy, put_value};
use shred_schema::{Column, FieldList, Node, Part, Record, RowList, RowRecord, Typed, width};
use std::alloc::Global;
use vs_bytes::{EntryList, NoMemory, Sequence};

/// The entries of some rows: one list for each leaf, in the order of the leaves.
pub type Stripes = Sequence<EntryList>;

/// The entries of rows of a column, split by leaf (the parquet-format README, "Nested Encoding"). Leaf 0 is the
/// metadata, the node's leaves follow.
///
/// Each row has an entry in each leaf at least, and the first has repetition level 0. Only memory can fail.
#[tactic(auto, using(shred_schema::proofs::NodeFacts::height_most))]
pub fn stripe(alloc: Global, column: &Column, rows: &RowList) -> Result<Stripes, NoMemory>
    requires of { AllByRecursion (RowIsOf column.now.optional (group_of column.now.node)) (map row_rec_of rows.now) }
    requires column { IsWellFormed (group_of column.now.node) }
    ensures leaves { IfOk result (λ s. length s ≡ 1 + width (group_of column.now.node)) }
    ensures stripes { IfOk result (λ s. (j : ℕ) → slice_index_or s j [] ≡ stripes column.now.optional (group_of column.now.node) (map row_rec_of rows.now) j) }
{
    let records = rows.as_slice();
    let mut leaves = empty_leaves(alloc, 1 + width(&column.node), records.len())?;
    for row in records {
        put_row(alloc, &mut leaves, column, row)?;
    }
    Ok(Sequence::from_vec(leaves))
}

/// So many leaves without entries, each with memory for `room` of them: each row has one at least.
fn empty_leaves(alloc: Global, count: usize, room: usize) -> Result<Vec<EntryList>, NoMemory>
    ensures leaves { IfOk result (λ v. length v.items ≡ count) }
    ensures empty { IfOk result (λ v. (j : ℕ) → slice_index_or v.items j [] ≡ []) }
{
    let mut leaves = Vec::with_capacity(alloc, count)?;
    for _leaf in 0..count {
        leaves.push(Sequence::with_capacity(alloc, room)?)?;
    }
    Ok(leaves)
}

/// Puts the entries of a row.
fn put_row(
    alloc: Global,
    leaves: &mut [EntryList],
    column: &Column,
    row: &RowRecord,
) -> Result<(), NoMemory>
    requires of { RowIsOf column.now.optional (group_of column.now.node) (row_rec_of row.now) }
    requires inside { 1 + width (group_of column.now.node) ≤ length leaves.old }
    requires short { length leaves.old ≤ max_leaves }
    requires deep { height (group_of column.now.node) ≤ max_nesting + 1 }
    ensures { OnOk result (Gains leaves.old leaves.new (row_entries column.now.optional (group_of column.now.node) 0 (row_rec_of row.now))) }
{
    match row {
        RowRecord::Absent => {
            let end = 1 + width(&column.node);
            put_nulls(
                leaves,
                0,
                end,
                Levels {
                    rep: 0,
                    lists: 0,
                    def: 0,
                },
            )
        }
        RowRecord::Present { meta, rec } => {
            let levels = Levels {
                rep: 0,
                lists: 0,
                def: top_level(column),
            };
            put_bytes(alloc, leaves, 0, levels, meta)?;
            put_record(alloc, leaves, 1, &column.node, levels, rec)?;
            Ok(())
        }
    }
}

/// The definition level at which the top node begins.
fn top_level(column: &Column) -> u16
    ensures { result ≡ top_level column.now.optional }
{
    if column.optional { 1 } else { 0 }
}

/// Puts what a record gives into the leaves of its node, of which `leaf` is the first, and answers the leaf after
/// them.
#[cycle(put)]
fn put_record(
    alloc: Global,
    leaves: &mut [EntryList],
    leaf: usize,
    node: &Node,
    levels: Levels,
    record_in: &Record,
) -> Result<usize, NoMemory>
    requires of { IsOf (group_of node.now) (rec_of record_in.now) }
    requires inside { leaf + width (group_of node.now) ≤ length leaves.old }
    requires short { length leaves.old ≤ max_leaves }
    requires lists { levels.lists + height (group_of node.now) < 2 ^ 16 }
    requires level { levels.def + 2 * height (group_of node.now) < 2 ^ 16 }
    ensures next { IfOk result (λ next. next ≡ leaf + width (group_of node.now)) }
    ensures gains { OnOk result (Gains leaves.old leaves.new (entries (group_of node.now) leaf levels.rep levels.lists levels.def (rec_of record_in.now))) }
{
    let next = put_value(alloc, leaves, leaf, node.value, levels, &record_in.value)?;
    match &record_in.typed {
        None => put_absent(leaves, next, &node.typed, levels),
        Some(part) => put_part(alloc, leaves, next, &node.typed, levels, part),
    }
}

/// Puts what a typed part gives.
#[cycle(put)]
fn put_part(
    alloc: Global,
    leaves: &mut [EntryList],
    leaf: usize,
    typed: &Typed,
    levels: Levels,
    part: &Part,
) -> Result<usize, NoMemory>
    requires of { PartIsOf (kind_of typed.now) (part_of part.now) }
    requires inside { leaf + kind_width (kind_of typed.now) ≤ length leaves.old }
    requires short { length leaves.old ≤ max_leaves }
    requires lists { levels.lists + kind_height (kind_of typed.now) + 1 < 2 ^ 16 }
    requires level { levels.def + 2 * kind_height (kind_of typed.now) + 2 < 2 ^ 16 }
    ensures next { IfOk result (λ next. next ≡ leaf + kind_width (kind_of typed.now)) }
    ensures gains { OnOk result (Gains leaves.old leaves.new (part_entries (kind_of typed.now) leaf levels.rep levels.lists levels.def (part_of part.now))) }
{
    match typed {
        Typed::Free => Ok(leaf),
        Typed::Prim(_) => match part {
            Part::Cell(cell) => {
                put_copy(alloc, leaves, leaf, levels.deeper(), cell)?;
                Ok(leaf + 1)
            }
            _ => put_absent(leaves, leaf, typed, levels),
        },
        Typed::Fields(fields) => match part {
            Part::Fields(records) => put_fields(
                alloc,
                leaves,
                leaf,
                fields,
                levels.deeper(),
                records.as_slice(),
            ),
            _ => put_absent(leaves, leaf, typed, levels),
        },
        Typed::Items(element) => match part {
            Part::Items(records) => put_items(
                alloc,
                leaves,
                leaf,
                element.get(),
                levels,
                records.as_slice(),
            ),
            _ => put_absent(leaves, leaf, typed, levels),
        },
    }
}

/// Puts the records of an object's fields.
#[cycle(put)]
fn put_fields(
    alloc: Global,
    leaves: &mut [EntryList],
    leaf: usize,
    fields: &FieldList,
    levels: Levels,
    records: &[Record],
) -> Result<usize, NoMemory>
    requires of { FieldsAreOf (groups_of fields.now) (recs_from (map rec_of records.now)) }
    requires inside { leaf + groups_width (groups_of fields.now) ≤ length leaves.old }
    requires short { length leaves.old ≤ max_leaves }
    requires lists { levels.lists + groups_height (groups_of fields.now) < 2 ^ 16 }
    requires level { levels.def + 2 * groups_height (groups_of fields.now) < 2 ^ 16 }
    ensures next { IfOk result (λ next. next ≡ leaf + groups_width (groups_of fields.now)) }
    ensures gains { OnOk result (Gains leaves.old leaves.new (fields_entries (groups_of fields.now) leaf levels.rep levels.lists levels.def (recs_from (map rec_of records.now)))) }
{
    let members = fields.as_slice();
    let mut at = leaf;
    for k in 0..members.len() {
        at = put_record(alloc, leaves, at, &members[k].1, levels, &records[k])?;
    }
    Ok(at)
}

/// Puts the records of a list's items.
#[cycle(put)]
fn put_items(
    alloc: Global,
    leaves: &mut [EntryList],
    leaf: usize,
    element: &Node,
    levels: Levels,
    records: &[Record],
) -> Result<usize, NoMemory>
    requires of { EachRec (IsOf (group_of element.now)) (recs_from (map rec_of records.now)) }
    requires inside { leaf + width (group_of element.now) ≤ length leaves.old }
    requires short { length leaves.old ≤ max_leaves }
    requires lists { levels.lists + height (group_of element.now) + 1 < 2 ^ 16 }
    requires level { levels.def + 2 * height (group_of element.now) + 2 < 2 ^ 16 }
    ensures next { IfOk result (λ next. next ≡ leaf + width (group_of element.now)) }
    ensures gains { OnOk result (Gains leaves.old leaves.new (part_entries (list_of (group_of element.now)) leaf levels.rep levels.lists levels.def (items (recs_from (map rec_of records.now))))) }
{
    match records.split_first() {
        None => {
            let next = leaf + width(element);
            put_nulls(leaves, leaf, next, levels.deeper())?;
            Ok(next)
        }
        Some((first, later)) => {
            let next = put_record(alloc, leaves, leaf, element, levels.first_item(), first)?;
            for record_in in later {
                put_record(alloc, leaves, leaf, element, levels.later_item(), record_in)?;
            }
            Ok(next)
        }
    }
}
