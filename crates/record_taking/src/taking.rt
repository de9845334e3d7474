//! Records taken.
//!
//! The first leaf of a part says whether the part is there. What its other leaves must then say is found where they
//! are taken. Where no record has the entries, how far the leaves are taken is open.

ghost use Rattle.std.specs.Prelude.{◌≡◌, ◌+◌, ◌-◌, ◌*◌, ◌^◌, ◌<◌, ◌≤◌, length, map, not, option_map, Some, IfOk};
ghost use Rattle.shred_schema.specs.Groups.{width, kind_width, groups_width, height, kind_height, groups_height};
ghost use Rattle.shred_schema.specs.Lawful.{HasLeaves, KindHasLeaves, GroupsHaveLeaves, max_leaves};
ghost use Rattle.shred_schema.specs.Ranges.{every};
ghost use Rattle.shred_schema.specs.Recs.{recs_from};
ghost use Rattle.shred_schema.specs.Views.{group_of, kind_of, groups_of, part_or_empty, rec_of, part_of};
ghost use Rattle.vs_bytes.specs.Outcome.{Reads};
ghost use Rattle.record_assembly.specs.Cuts.{is_nil};
ghost use Rattle.record_assembly.specs.Reading.{is_null, are_nil, with_part, read, part_read, fields_read};
ghost use Rattle.column_assembly.specs.Leaves.{heads, Passed};
ghost use Rattle.record_taking.specs.Parts.{Puts, is_bare, is_free, rests, typed_read, list_read, items_of};

use crate::levels::Levels;
use crate::scalars::{number_record, take_scalar, take_scalar_number};
use column_assembly::{Cursor, take_cell, take_no_value, take_nulls, take_value};
use shred_schema::{
    FieldList, Node, Part, Record, RecordList, Slot, Typed, slot_width, typed_width, width,
};
use sqlite_items::Items;
use std::alloc::Global;
use vs_bytes::{Absent, Bytes, Refused};

// For how many items a list has room at first: most have no more.
const ITEM_ROOM: usize = 8;

/// Takes a record of a node, whose leaves begin with `leaf`, and answers the leaf after them.
///
/// `Absent` exactly where no record has the entries.
pub fn take_record(
    alloc: Global,
    cursors: &mut [Cursor],
    leaf: usize,
    node: &Node,
    levels: Levels,
) -> Result<(Record, usize), Refused<Absent>>
    requires leaves { HasLeaves (group_of node.now) }
    requires inside { leaf + width (group_of node.now) ≤ length cursors.old }
    requires short { length cursors.old ≤ max_leaves }
    requires lists { levels.lists + height (group_of node.now) < 2 ^ 16 }
    requires level { levels.def + 2 * height (group_of node.now) < 2 ^ 16 }
    ensures read { Reads (λ p. rec_of p.0) result (read (group_of node.now) leaf every levels.rep levels.lists levels.def (heads levels.lists cursors.old)) }
    ensures next { IfOk result (λ p. p.1 ≡ leaf + width (group_of node.now)) }
    ensures passed { IfOk result (λ p. Passed cursors.old cursors.new leaf (width (group_of node.now)) levels.lists) }
{
    let taken = take_value(
        cursors,
        leaf,
        node.value,
        levels.lists,
        levels.rep,
        levels.def,
    );
    let Some(value) = taken else {
        return Err(Refused::Fault(Absent));
    };
    let first = leaf + slot_width(node.value);
    let (typed, next) = take_typed(alloc, cursors, first, &node.typed, levels)?;
    Ok((Record { value, typed }, next))
}

/// Takes a record of a node, as `take_record` does, and puts it after `records`: it is written where it stays.
#[cycle(take)]
fn put_record(
    alloc: Global,
    cursors: &mut [Cursor],
    leaf: usize,
    node: &Node,
    levels: Levels,
    records: &mut Vec<Record>,
) -> Result<usize, Refused<Absent>>
    requires leaves { HasLeaves (group_of node.now) }
    requires inside { leaf + width (group_of node.now) ≤ length cursors.old }
    requires short { length cursors.old ≤ max_leaves }
    requires lists { levels.lists + height (group_of node.now) < 2 ^ 16 }
    requires level { levels.def + 2 * height (group_of node.now) < 2 ^ 16 }
    ensures puts { Puts result (read (group_of node.now) leaf every levels.rep levels.lists levels.def (heads levels.lists cursors.old)) records.old.items records.new.items }
    ensures next { IfOk result (λ next. next ≡ leaf + width (group_of node.now)) }
    ensures passed { IfOk result (λ next. Passed cursors.old cursors.new leaf (width (group_of node.now)) levels.lists) }
{
    if !take_no_value(
        cursors,
        leaf,
        node.value,
        levels.lists,
        levels.rep,
        levels.def,
    ) {
        return put_valued(alloc, cursors, leaf, node, levels, records);
    }
    let first = leaf + slot_width(node.value);
    // Most fields and items are scalars without a value beside them. A number is copied, and no cell is moved.
    match take_scalar_number(cursors, first, &node.typed, levels) {
        Some(number) => {
            // Room first: a push that can fail holds the record twice.
            records.reserve(1)?;
            records.push_reserved(number_record(number));
            Ok(first + 1)
        }
        None => put_typed(alloc, cursors, first, &node.typed, levels, None, records),
    }
}

/// The same, where the value's leaf may say anything.
#[cycle(take)]
fn put_valued(
    alloc: Global,
    cursors: &mut [Cursor],
    leaf: usize,
    node: &Node,
    levels: Levels,
    records: &mut Vec<Record>,
) -> Result<usize, Refused<Absent>>
    requires leaves { HasLeaves (group_of node.now) }
    requires inside { leaf + width (group_of node.now) ≤ length cursors.old }
    requires short { length cursors.old ≤ max_leaves }
    requires lists { levels.lists + height (group_of node.now) < 2 ^ 16 }
    requires level { levels.def + 2 * height (group_of node.now) < 2 ^ 16 }
    ensures puts { Puts result (read (group_of node.now) leaf every levels.rep levels.lists levels.def (heads levels.lists cursors.old)) records.old.items records.new.items }
    ensures next { IfOk result (λ next. next ≡ leaf + width (group_of node.now)) }
    ensures passed { IfOk result (λ next. Passed cursors.old cursors.new leaf (width (group_of node.now)) levels.lists) }
{
    let taken = take_value(
        cursors,
        leaf,
        node.value,
        levels.lists,
        levels.rep,
        levels.def,
    );
    let Some(value) = taken else {
        return Err(Refused::Fault(Absent));
    };
    let first = leaf + slot_width(node.value);
    put_typed(alloc, cursors, first, &node.typed, levels, value, records)
}

/// Takes a typed part, if there is one, and puts a record of it and of `value` after `records`.
#[cycle(take)]
fn put_typed(
    alloc: Global,
    cursors: &mut [Cursor],
    leaf: usize,
    typed: &Typed,
    levels: Levels,
    value: Option<Bytes>,
    records: &mut Vec<Record>,
) -> Result<usize, Refused<Absent>>
    requires leaves { KindHasLeaves (kind_of typed.now) }
    requires inside { leaf + kind_width (kind_of typed.now) ≤ length cursors.old }
    requires short { length cursors.old ≤ max_leaves }
    requires lists { levels.lists + kind_height (kind_of typed.now) + 1 < 2 ^ 16 }
    requires level { levels.def + 2 * kind_height (kind_of typed.now) + 2 < 2 ^ 16 }
    ensures puts { Puts result (with_part (Some value) (typed_read (kind_of typed.now) leaf levels.rep levels.lists levels.def (heads levels.lists cursors.old))) records.old.items records.new.items }
    ensures next { IfOk result (λ next. next ≡ leaf + kind_width (kind_of typed.now)) }
    ensures passed { IfOk result (λ next. Passed cursors.old cursors.new leaf (kind_width (kind_of typed.now)) levels.lists) }
{
    records.reserve(1)?;
    match take_scalar(cursors, leaf, typed, levels) {
        Some(cell) => {
            records.push_reserved(Record {
                value,
                typed: Some(Part::Cell(cell)),
            });
            return Ok(leaf + 1);
        }
        None => (),
    }
    let (typed, next) = take_typed(alloc, cursors, leaf, typed, levels)?;
    records.push_reserved(Record { value, typed });
    Ok(next)
}

/// Takes the typed part of a node, if there is one.
#[cycle(take)]
fn take_typed(
    alloc: Global,
    cursors: &mut [Cursor],
    leaf: usize,
    typed: &Typed,
    levels: Levels,
) -> Result<(Option<Part>, usize), Refused<Absent>>
    requires leaves { KindHasLeaves (kind_of typed.now) }
    requires inside { leaf + kind_width (kind_of typed.now) ≤ length cursors.old }
    requires short { length cursors.old ≤ max_leaves }
    requires lists { levels.lists + kind_height (kind_of typed.now) + 1 < 2 ^ 16 }
    requires level { levels.def + 2 * kind_height (kind_of typed.now) + 2 < 2 ^ 16 }
    ensures read { Reads (λ p. part_or_empty (option_map part_of p.0)) result (typed_read (kind_of typed.now) leaf levels.rep levels.lists levels.def (heads levels.lists cursors.old)) }
    ensures next { IfOk result (λ p. p.1 ≡ leaf + kind_width (kind_of typed.now)) }
    ensures passed { IfOk result (λ p. Passed cursors.old cursors.new leaf (kind_width (kind_of typed.now)) levels.lists) }
{
    if is_free(typed) {
        return Ok((None, leaf));
    }
    if is_null(cursors, leaf, levels) {
        let next = leaf + typed_width(typed);
        if !take_nulls(cursors, leaf, next, levels.lists, levels.rep, levels.def) {
            return Err(Refused::Fault(Absent));
        }
        return Ok((None, next));
    }
    let (part, next) = take_part(alloc, cursors, leaf, typed, levels)?;
    Ok((Some(part), next))
}

/// Whether a node has neither a value nor a typed part.
fn is_bare(node: &Node) -> bool
    ensures { result ≡ is_bare (group_of node.now) }
{
    match node.value {
        Slot::Absent => is_free(&node.typed),
        _ => false,
    }
}

/// Whether a node has no typed part.
fn is_free(typed: &Typed) -> bool
    ensures { result ≡ is_free (kind_of typed.now) }
{
    match typed {
        Typed::Free => true,
        _ => false,
    }
}

/// Whether the first item of a leaf is one entry without value, which has these levels.
fn is_null(cursors: &[Cursor], leaf: usize, levels: Levels) -> bool
    requires { leaf < length cursors.now }
    ensures { result ≡ is_null levels.rep levels.def (heads levels.lists cursors.now leaf) }
{
    cursors[leaf].is_null(levels.lists, levels.rep, levels.def)
}

/// Takes a typed part that is there.
#[cycle(take)]
fn take_part(
    alloc: Global,
    cursors: &mut [Cursor],
    leaf: usize,
    typed: &Typed,
    levels: Levels,
) -> Result<(Part, usize), Refused<Absent>>
    requires leaves { KindHasLeaves (kind_of typed.now) }
    requires inside { leaf + kind_width (kind_of typed.now) ≤ length cursors.old }
    requires short { length cursors.old ≤ max_leaves }
    requires lists { levels.lists + kind_height (kind_of typed.now) + 1 < 2 ^ 16 }
    requires level { levels.def + 2 * kind_height (kind_of typed.now) + 2 < 2 ^ 16 }
    ensures read { Reads (λ p. part_of p.0) result (part_read (kind_of typed.now) leaf every levels.rep levels.lists levels.def (heads levels.lists cursors.old)) }
    ensures next { IfOk result (λ p. p.1 ≡ leaf + kind_width (kind_of typed.now)) }
    ensures passed { IfOk result (λ p. Passed cursors.old cursors.new leaf (kind_width (kind_of typed.now)) levels.lists) }
{
    match typed {
        Typed::Free => Err(Refused::Fault(Absent)),
        Typed::Prim(prim) => {
            match take_cell(
                cursors,
                leaf,
                *prim,
                levels.lists,
                levels.rep,
                levels.def + 1,
            ) {
                Some(cell) => Ok((Part::Cell(cell), leaf + 1)),
                None => Err(Refused::Fault(Absent)),
            }
        }
        Typed::Fields(fields) => {
            let inside = Levels {
                def: levels.def + 1,
                ..levels
            };
            let (records, next) = take_fields(alloc, cursors, leaf, fields, inside)?;
            Ok((Part::Fields(records), next))
        }
        Typed::Items(element) => {
            let (records, next) = take_list(alloc, cursors, leaf, element.get(), levels)?;
            Ok((Part::Items(records), next))
        }
    }
}

/// Takes the records of an object's fields.
#[cycle(take)]
fn take_fields(
    alloc: Global,
    cursors: &mut [Cursor],
    leaf: usize,
    fields: &FieldList,
    levels: Levels,
) -> Result<(RecordList, usize), Refused<Absent>>
    requires leaves { GroupsHaveLeaves (groups_of fields.now) }
    requires inside { leaf + groups_width (groups_of fields.now) ≤ length cursors.old }
    requires short { length cursors.old ≤ max_leaves }
    requires lists { levels.lists + groups_height (groups_of fields.now) < 2 ^ 16 }
    requires level { levels.def + 2 * groups_height (groups_of fields.now) < 2 ^ 16 }
    ensures read { Reads (λ p. recs_from (map rec_of p.0)) result (fields_read (groups_of fields.now) leaf every levels.rep levels.lists levels.def (heads levels.lists cursors.old)) }
    ensures next { IfOk result (λ p. p.1 ≡ leaf + groups_width (groups_of fields.now)) }
    ensures passed { IfOk result (λ p. Passed cursors.old cursors.new leaf (groups_width (groups_of fields.now)) levels.lists) }
{
    let members = fields.as_slice();
    let mut records = Vec::with_capacity(alloc, members.len())?;
    let mut at = leaf;
    for k in 0..members.len() {
        let node = &members[k].1;
        // A field that isn't read keeps its place, and most fields of a projected column are of this kind.
        if is_bare(node) {
            records.reserve(1)?;
            records.push_reserved(Record {
                value: None,
                typed: None,
            });
            continue;
        }
        at = put_record(alloc, cursors, at, node, levels, &mut records)?;
    }
    Ok((Items::from_vec(records), at))
}

/// Takes the records of a list's items, of which there may be none.
#[cycle(take)]
fn take_list(
    alloc: Global,
    cursors: &mut [Cursor],
    leaf: usize,
    element: &Node,
    levels: Levels,
) -> Result<(RecordList, usize), Refused<Absent>>
    requires some { 1 ≤ width (group_of element.now) }
    requires leaves { HasLeaves (group_of element.now) }
    requires inside { leaf + width (group_of element.now) ≤ length cursors.old }
    requires short { length cursors.old ≤ max_leaves }
    requires lists { levels.lists + height (group_of element.now) + 1 < 2 ^ 16 }
    requires level { levels.def + 2 * height (group_of element.now) + 2 < 2 ^ 16 }
    ensures read { Reads (λ p. map rec_of p.0) result (items_of (group_of element.now) leaf levels.rep levels.lists levels.def (heads levels.lists cursors.old)) }
    ensures next { IfOk result (λ p. p.1 ≡ leaf + width (group_of element.now)) }
    ensures passed { IfOk result (λ p. Passed cursors.old cursors.new leaf (width (group_of element.now)) levels.lists) }
{
    let inside = Levels {
        def: levels.def + 1,
        ..levels
    };
    if is_null(cursors, leaf, inside) {
        let next = leaf + width(element);
        if !take_nulls(cursors, leaf, next, inside.lists, inside.rep, inside.def) {
            return Err(Refused::Fault(Absent));
        }
        return Ok((Items::new(alloc), next));
    }
    take_items(alloc, cursors, leaf, element, levels)
}

/// Takes the records of a list's items, of which there is one at least.
#[cycle(take)]
fn take_items(
    alloc: Global,
    cursors: &mut [Cursor],
    leaf: usize,
    element: &Node,
    levels: Levels,
) -> Result<(RecordList, usize), Refused<Absent>>
    requires some { 1 ≤ width (group_of element.now) }
    requires leaves { HasLeaves (group_of element.now) }
    requires inside { leaf + width (group_of element.now) ≤ length cursors.old }
    requires short { length cursors.old ≤ max_leaves }
    requires lists { levels.lists + height (group_of element.now) + 1 < 2 ^ 16 }
    requires level { levels.def + 2 * height (group_of element.now) + 2 < 2 ^ 16 }
    ensures read { Reads (λ p. map rec_of p.0) result (list_read (group_of element.now) leaf levels.rep levels.lists levels.def (heads levels.lists cursors.old)) }
    ensures next { IfOk result (λ p. p.1 ≡ leaf + width (group_of element.now)) }
    ensures passed { IfOk result (λ p. Passed cursors.old cursors.new leaf (width (group_of element.now)) levels.lists) }
{
    let first = Levels {
        rep: levels.rep,
        lists: levels.lists + 1,
        def: levels.def + 2,
    };
    let later = Levels {
        rep: levels.lists + 1,
        ..first
    };
    let mut records = Vec::with_capacity(alloc, ITEM_ROOM)?;
    let next = put_record(alloc, cursors, leaf, element, first, &mut records)?;
    while goes_on(cursors, leaf, levels.lists) {
        put_record(alloc, cursors, leaf, element, later, &mut records)?;
    }
    if !are_done(cursors, leaf, next, levels.lists) {
        return Err(Refused::Fault(Absent));
    }
    Ok((Items::from_vec(records), next))
}

/// Whether the first entry that is left of a leaf goes on an item of a list at level `lists`.
fn goes_on(cursors: &[Cursor], leaf: usize, lists: u16) -> bool
    requires { leaf < length cursors.now }
    ensures { result ≡ not (is_nil (rests lists cursors.now leaf)) }
{
    cursors[leaf].goes_on(lists)
}

/// Whether no leaf from `from` on in front of `to` goes on an item of a list at level `lists`.
fn are_done(cursors: &[Cursor], from: usize, to: usize, lists: u16) -> bool
    requires order { from ≤ to }
    requires inside { to ≤ length cursors.now }
    ensures { result ≡ are_nil every from (to - from) (rests lists cursors.now) }
{
    for leaf in from..to {
        if goes_on(cursors, leaf, lists) {
            return false;
        }
    }
    true
}
