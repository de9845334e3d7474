//! How many entries a row has.

ghost use Rattle.std.specs.Prelude.{◌≡◌, ◌+◌, ◌-◌, ◌^◌, ◌≤◌, min, map, length};
ghost use Rattle.shred_schema.specs.Groups.{width, kind_width, groups_width, list_of};
ghost use Rattle.shred_schema.specs.Lawful.{IsWellFormed, max_leaves};
ghost use Rattle.shred_schema.specs.Recs.{EachRec, empty, items, recs_from};
ghost use Rattle.shred_schema.specs.Shapes.{IsOf, PartIsOf, FieldsAreOf, RowIsOf};
ghost use Rattle.shred_schema.specs.Views.{group_of, kind_of, groups_of, rec_of, part_of, row_rec_of};
ghost use Rattle.level_striping.specs.Counts.{leaf_sum, entry_count, part_count, fields_count, row_count};
ghost use Rattle.level_striping.specs.Entries.{row_entries};

use shred_schema::{
    Column, FieldList, Node, Part, Record, RowRecord, Slot, Typed, typed_width, width,
};

/// How many entries a row has in all leaves together, or 2^64 - 1 where it has more. No entry is made.
pub fn entries_of_row(column: &Column, row: &RowRecord) -> usize
    requires of { RowIsOf column.now.optional (group_of column.now.node) (row_rec_of row.now) }
    requires column { IsWellFormed (group_of column.now.node) }
    ensures { result ≡ min (leaf_sum 0 (1 + width (group_of column.now.node)) (λ j. length (row_entries column.now.optional (group_of column.now.node) 0 (row_rec_of row.now) j))) (2 ^ 64 - 1) }
{
    row_total(column, row)
}

fn row_total(column: &Column, row: &RowRecord) -> usize
    requires of { RowIsOf column.now.optional (group_of column.now.node) (row_rec_of row.now) }
    requires few { 1 + width (group_of column.now.node) ≤ max_leaves }
    ensures { result ≡ min (row_count (group_of column.now.node) (row_rec_of row.now)) (2 ^ 64 - 1) }
{
    match row {
        RowRecord::Absent => 1 + width(&column.node),
        RowRecord::Present { meta: _, rec } => record_total(&column.node, rec).saturating_add(1),
    }
}

#[cycle(total)]
fn record_total(node: &Node, record_in: &Record) -> usize
    requires of { IsOf (group_of node.now) (rec_of record_in.now) }
    requires few { width (group_of node.now) ≤ max_leaves }
    ensures { result ≡ min (entry_count (group_of node.now) (rec_of record_in.now)) (2 ^ 64 - 1) }
{
    let typed = match &record_in.typed {
        None => absent_total(&node.typed),
        Some(part) => part_total(&node.typed, part),
    };
    match node.value {
        Slot::Absent => typed,
        Slot::Required => typed.saturating_add(1),
        Slot::Optional => typed.saturating_add(1),
    }
}

fn absent_total(typed: &Typed) -> usize
    requires { kind_width (kind_of typed.now) ≤ max_leaves }
    ensures { result ≡ min (part_count (kind_of typed.now) empty) (2 ^ 64 - 1) }
{
    typed_width(typed)
}

#[cycle(total)]
fn part_total(typed: &Typed, part: &Part) -> usize
    requires of { PartIsOf (kind_of typed.now) (part_of part.now) }
    requires few { kind_width (kind_of typed.now) ≤ max_leaves }
    ensures { result ≡ min (part_count (kind_of typed.now) (part_of part.now)) (2 ^ 64 - 1) }
{
    match typed {
        Typed::Free => 0,
        Typed::Prim(_) => 1,
        Typed::Fields(fields) => match part {
            Part::Fields(records) => fields_total(fields, records.as_slice()),
            _ => absent_total(typed),
        },
        Typed::Items(element) => match part {
            Part::Items(records) => items_total(element.get(), records.as_slice()),
            _ => absent_total(typed),
        },
    }
}

#[cycle(total)]
fn fields_total(fields: &FieldList, records: &[Record]) -> usize
    requires of { FieldsAreOf (groups_of fields.now) (recs_from (map rec_of records.now)) }
    requires few { groups_width (groups_of fields.now) ≤ max_leaves }
    ensures { result ≡ min (fields_count (groups_of fields.now) (recs_from (map rec_of records.now))) (2 ^ 64 - 1) }
{
    let members = fields.as_slice();
    let mut total: usize = 0;
    for k in 0..members.len() {
        total = total.saturating_add(record_total(&members[k].1, &records[k]));
    }
    total
}

#[cycle(total)]
fn items_total(element: &Node, records: &[Record]) -> usize
    requires of { EachRec (IsOf (group_of element.now)) (recs_from (map rec_of records.now)) }
    requires few { width (group_of element.now) ≤ max_leaves }
    ensures { result ≡ min (part_count (list_of (group_of element.now)) (items (recs_from (map rec_of records.now)))) (2 ^ 64 - 1) }
{
    if records.is_empty() {
        return width(element);
    }
    let mut total: usize = 0;
    for record_in in records {
        total = total.saturating_add(record_total(element, record_in));
    }
    total
}
