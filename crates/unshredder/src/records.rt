//! Records, node by node.

ghost use Rattle.std.specs.Prelude.{◌≡◌, ℕ, ◌+◌, ◌≤◌, Bool, map, None, Some};
ghost use Rattle.std.specs.Option.{option_map};
ghost use Rattle.json_tree.specs.Json.{object, items_of};
ghost use Rattle.json_tree.specs.View.{view, seen as pair_seen};
ghost use Rattle.vs_bytes.specs.Outcome.{Makes};
ghost use Rattle.variant_meta.specs.MetaRefs.{names_of};
ghost use Rattle.variant_read.specs.Meaning.{max_nesting};
ghost use Rattle.variant_read.specs.View.{json_of};
ghost use Rattle.shred_schema.specs.Groups.{nesting, kind_nesting, groups_nesting, groups_from};
ghost use Rattle.shred_schema.specs.Lawful.{AreNodes, IsObject, EachIn, EachField, HasEither, MayHold};
ghost use Rattle.shred_schema.specs.Recs.{recs_from, EachRec};
ghost use Rattle.shred_schema.specs.Shapes.{HasShape, PartHasShape, FieldsHaveShape};
ghost use Rattle.shred_schema.specs.Views.{group_of, kind_of, rec_of, part_of, part_or_empty, named};
ghost use Rattle.unshredder.specs.Merging.{with_fields, with_items};
ghost use Rattle.unshredder.specs.Readings.{IsReading, AreInside, AreReadings, UnderSome};
ghost use Rattle.unshredder.specs.declared.readings.Reading.{out-Reading};
ghost use Rattle.unshredder.specs.Alone.{with_member};
ghost use Rattle.unshredder.specs.Seen.{seen, typed_seen, fields_seen, items_seen, is_tested, ahead};

use crate::alone::{FieldsAlone, number_alone};
use crate::merging::{
    left_over, put_member, put_number, value_seen, whole, with_cell, without_fields,
};
use crate::places::members_of;
use crate::readings::Reading;
use json_tree::{Items, Members, Tree};
use shred_schema::{Node, Part, Record, Typed};
use std::alloc::Global;
use variant_meta::MetaRef;
use variant_read::ValueRef;
use vs_bytes::{Refusal, Rule, Text};

// Room for members that is taken at once: an object may have few of its many fields.
const FIRST_ROOM: usize = 12;

/// What a record means under each mask of which the reading is one, or the first rule that it violates. Its node stands
/// inside `above` objects and lists. `None` where nothing is there.
#[cycle(seen)]
pub(crate) fn seen(
    alloc: Global,
    reading: &Reading,
    meta: &MetaRef,
    node: &Node,
    above: u8,
    rec: &Record,
) -> Result<Option<Tree>, Refusal>
    requires nodes { AreNodes (group_of node.now) }
    requires shape { HasShape (group_of node.now) (rec_of rec.now) }
    requires reading { UnderSome (λ mask leaf. IsReading mask (group_of node.now) leaf reading.now) }
    requires deep { above + nesting (group_of node.now) ≤ max_nesting }
    ensures { (mask : ℕ → Bool) (leaf : ℕ) → IsReading mask (group_of node.now) leaf reading.now → Makes (option_map view) result (seen mask (names_of meta.now) (group_of node.now) leaf above (rec_of rec.now)) }
{
    let value = value_seen(*meta, above, reading.value, &rec.value)?;
    if reading.typed {
        typed_seen(
            alloc,
            reading.inside.as_slice(),
            reading.moves.as_slice(),
            meta,
            &node.typed,
            above,
            value,
            &rec.typed,
        )
    } else {
        Ok(whole(alloc, value)?)
    }
}

// The typed part of a node, some leaf of which is read.
#[cycle(seen)]
fn typed_seen(
    alloc: Global,
    inside: &[Reading],
    moves: &[(usize, usize)],
    meta: &MetaRef,
    typed: &Typed,
    above: u8,
    value: Option<ValueRef>,
    part: &Option<Part>,
) -> Result<Option<Tree>, Refusal>
    requires nodes { EachIn HasEither MayHold (kind_of typed.now) }
    requires shape { PartHasShape (kind_of typed.now) (part_or_empty (option_map part_of part.now)) }
    requires readings { UnderSome (λ mask leaf. AreInside mask (kind_of typed.now) leaf inside.now) }
    requires deep { above + kind_nesting (kind_of typed.now) ≤ max_nesting }
    ensures { (mask : ℕ → Bool) (leaf : ℕ) → AreInside mask (kind_of typed.now) leaf inside.now → Makes (option_map view) result (typed_seen mask (names_of meta.now) (kind_of typed.now) leaf above (option_map json_of value.entry) (part_or_empty (option_map part_of part.now))) }
{
    match typed {
        Typed::Free => Ok(whole(alloc, value)?),
        Typed::Prim(prim) => match part {
            Some(part) => match part {
                Part::Cell(cell) => with_cell(alloc, value, *prim, cell),
                _ => unreachable!(),
            },
            None => Ok(whole(alloc, value)?),
        },
        Typed::Fields(fields) => match part {
            Some(part) => match part {
                Part::Fields(records) => with_fields(
                    alloc,
                    inside,
                    moves,
                    meta,
                    fields.as_slice(),
                    above,
                    value,
                    records.as_slice(),
                ),
                _ => unreachable!(),
            },
            None => without_fields(alloc, value),
        },
        Typed::Items(node) => match part {
            Some(part) => match part {
                Part::Items(records) => with_items(
                    alloc,
                    &inside[0],
                    meta,
                    node.get(),
                    above,
                    value,
                    records.as_slice(),
                ),
                _ => unreachable!(),
            },
            None => Ok(whole(alloc, value)?),
        },
    }
}

// An object, of whose fields each has a record. Its value may have further members.
#[cycle(seen)]
#[inline(always)]
fn with_fields(
    alloc: Global,
    readings: &[Reading],
    moves: &[(usize, usize)],
    meta: &MetaRef,
    fields: &[(Text, Node)],
    above: u8,
    value: Option<ValueRef>,
    records: &[Record],
) -> Result<Option<Tree>, Refusal>
    requires object { IsObject (groups_from (map named fields.now)) }
    requires nodes { EachField HasEither MayHold (groups_from (map named fields.now)) }
    requires shape { FieldsHaveShape (groups_from (map named fields.now)) (recs_from (map rec_of records.now)) }
    requires readings { UnderSome (λ mask leaf. AreReadings mask (groups_from (map named fields.now)) 0 leaf readings.now) }
    requires deep { above + groups_nesting (groups_from (map named fields.now)) + 1 ≤ max_nesting }
    ensures { (mask : ℕ → Bool) (leaf : ℕ) → AreReadings mask (groups_from (map named fields.now)) 0 leaf readings.now → Makes (option_map view) result (with_fields (groups_from (map named fields.now)) (option_map json_of value.entry) (fields_seen mask (names_of meta.now) (groups_from (map named fields.now)) leaf (above + 1) (recs_from (map rec_of records.now)))) }
{
    let left = left_over(alloc, fields, value)?;
    let pairs = fields_seen(alloc, readings, meta, fields, above + 1, left, records)?;
    match members_of(pairs, moves) {
        Ok(members) => Ok(Some(Tree::Object(members))),
        Err(_) => unreachable!(),
    }
}

// The members that the fields give, after those that are left over. A field of which no leaf is read gives none.
#[cycle(seen)]
#[inline(always)]
fn fields_seen(
    alloc: Global,
    readings: &[Reading],
    meta: &MetaRef,
    fields: &[(Text, Node)],
    above: u8,
    left: Vec<(Text, Tree)>,
    records: &[Record],
) -> Result<Vec<(Text, Tree)>, Refusal>
    requires nodes { EachField HasEither MayHold (groups_from (map named fields.now)) }
    requires shape { FieldsHaveShape (groups_from (map named fields.now)) (recs_from (map rec_of records.now)) }
    requires readings { UnderSome (λ mask leaf. AreReadings mask (groups_from (map named fields.now)) 0 leaf readings.now) }
    requires deep { above + groups_nesting (groups_from (map named fields.now)) ≤ max_nesting }
    ensures { (mask : ℕ → Bool) (leaf : ℕ) → AreReadings mask (groups_from (map named fields.now)) 0 leaf readings.now → Makes (λ pairs. map pair_seen pairs.items) result (ahead (map pair_seen left.items) (fields_seen mask (names_of meta.now) (groups_from (map named fields.now)) leaf above (recs_from (map rec_of records.now)))) }
{
    let mut left = left;
    for reading in readings {
        let k = reading.place;
        put_field(
            alloc,
            reading,
            meta,
            &fields[k],
            above,
            &records[k],
            &mut left,
        )?;
    }
    Ok(left)
}

// Puts a field that isn't missing after the members. An integer that stands alone is put without a tree in between.
#[cycle(seen)]
#[inline(always)]
fn put_field(
    alloc: Global,
    reading: &Reading,
    meta: &MetaRef,
    field: &(Text, Node),
    above: u8,
    rec: &Record,
    pairs: &mut Vec<(Text, Tree)>,
) -> Result<(), Refusal>
    requires nodes { AreNodes (group_of field.now.1) }
    requires shape { HasShape (group_of field.now.1) (rec_of rec.now) }
    requires reading { UnderSome (λ mask leaf. IsReading mask (group_of field.now.1) leaf reading.now) }
    requires deep { above + nesting (group_of field.now.1) ≤ max_nesting }
    ensures { (mask : ℕ → Bool) (leaf : ℕ) → IsReading mask (group_of field.now.1) leaf reading.now → Makes (λ none. map pair_seen pairs.new.items) result (with_member (map pair_seen pairs.old.items) field.now.0 (seen mask (names_of meta.now) (group_of field.now.1) leaf above (rec_of rec.now))) }
{
    match number_alone(reading, &field.1, rec) {
        Some(number) => Ok(put_number(alloc, &field.0, number, pairs)?),
        None => put_seen(alloc, reading, meta, field, above, rec, pairs),
    }
}

// The same by the way of every node.
#[cycle(seen)]
#[inline(always)]
fn put_seen(
    alloc: Global,
    reading: &Reading,
    meta: &MetaRef,
    field: &(Text, Node),
    above: u8,
    rec: &Record,
    pairs: &mut Vec<(Text, Tree)>,
) -> Result<(), Refusal>
    requires nodes { AreNodes (group_of field.now.1) }
    requires shape { HasShape (group_of field.now.1) (rec_of rec.now) }
    requires reading { UnderSome (λ mask leaf. IsReading mask (group_of field.now.1) leaf reading.now) }
    requires deep { above + nesting (group_of field.now.1) ≤ max_nesting }
    ensures { (mask : ℕ → Bool) (leaf : ℕ) → IsReading mask (group_of field.now.1) leaf reading.now → Makes (λ none. map pair_seen pairs.new.items) result (with_member (map pair_seen pairs.old.items) field.now.0 (seen mask (names_of meta.now) (group_of field.now.1) leaf above (rec_of rec.now))) }
{
    match seen(alloc, reading, meta, &field.1, above, rec) {
        Ok(found) => Ok(put_member(alloc, &field.0, found, pairs)?),
        Err(refused) => Err(refused),
    }
}

// A list, beside which no value may stand.
#[cycle(seen)]
#[tactic(auto, using(crate::proofs::Members::parts_back))]
fn with_items(
    alloc: Global,
    reading: &Reading,
    meta: &MetaRef,
    node: &Node,
    above: u8,
    value: Option<ValueRef>,
    records: &[Record],
) -> Result<Option<Tree>, Refusal>
    requires nodes { AreNodes (group_of node.now) }
    requires shape { EachRec (HasShape (group_of node.now)) (recs_from (map rec_of records.now)) }
    requires reading { UnderSome (λ mask leaf. IsReading mask (group_of node.now) leaf reading.now) }
    requires deep { above + nesting (group_of node.now) + 1 ≤ max_nesting }
    ensures { (mask : ℕ → Bool) (leaf : ℕ) → IsReading mask (group_of node.now) leaf reading.now → Makes (option_map view) result (with_items (option_map json_of value.entry) (items_seen (is_tested mask leaf (group_of node.now)) (seen mask (names_of meta.now) (group_of node.now) leaf (above + 1)) (recs_from (map rec_of records.now)))) }
{
    match value {
        Some(_) => Err(Refusal::Fault(Rule::BothPresent)),
        None => Ok(Some(Tree::Array(items_seen(alloc, reading, meta, node, above + 1, records)?))),
    }
}

// The elements of a list.
#[cycle(seen)]
#[tactic(auto, using(crate::proofs::Members::items_back, crate::proofs::Ahead::element_turn, crate::proofs::Ahead::elements_end))]
fn items_seen(
    alloc: Global,
    reading: &Reading,
    meta: &MetaRef,
    node: &Node,
    above: u8,
    records: &[Record],
) -> Result<Items, Refusal>
    requires nodes { AreNodes (group_of node.now) }
    requires shape { EachRec (HasShape (group_of node.now)) (recs_from (map rec_of records.now)) }
    requires reading { UnderSome (λ mask leaf. IsReading mask (group_of node.now) leaf reading.now) }
    requires deep { above + nesting (group_of node.now) ≤ max_nesting }
    ensures { (mask : ℕ → Bool) (leaf : ℕ) → IsReading mask (group_of node.now) leaf reading.now → Makes items_of result (items_seen (is_tested mask leaf (group_of node.now)) (seen mask (names_of meta.now) (group_of node.now) leaf above) (recs_from (map rec_of records.now))) }
{
    let mut trees = Vec::with_capacity(alloc, records.len())?;
    for rec in records {
        match seen(alloc, reading, meta, node, above, rec)? {
            Some(tree) => trees.push(tree)?,
            None => {
                if reading.tested {
                    return Err(Refusal::Fault(Rule::ElementMissing));
                }
                trees.push(Tree::Null)?;
            }
        }
    }
    Ok(Items::from_vec(trees))
}

/// The members of an object of which only the typed part counts. It answers them bare, since each wrapper of a result is
/// one more copy.
pub(crate) fn members_alone(
    alloc: Global,
    reading: &Reading,
    meta: &MetaRef,
    alone: FieldsAlone,
    above: u8,
) -> Result<Members, Refusal>
    requires object { IsObject (groups_from (map named alone.fields.now)) }
    requires nodes { EachField HasEither MayHold (groups_from (map named alone.fields.now)) }
    requires shape { FieldsHaveShape (groups_from (map named alone.fields.now)) (recs_from (map rec_of alone.records.now)) }
    requires readings { UnderSome (λ mask leaf. AreReadings mask (groups_from (map named alone.fields.now)) 0 leaf (out-Reading reading.now).inside) }
    requires deep { above + groups_nesting (groups_from (map named alone.fields.now)) + 1 ≤ max_nesting }
    ensures { (mask : ℕ → Bool) (leaf : ℕ) → AreReadings mask (groups_from (map named alone.entry.fields.now)) 0 leaf (out-Reading reading.now).inside → Makes (λ members. Some (object members)) result (with_fields (groups_from (map named alone.entry.fields.now)) None (fields_seen mask (names_of meta.now) (groups_from (map named alone.entry.fields.now)) leaf (above + 1) (recs_from (map rec_of alone.entry.records.now)))) }
{
    let readings = reading.inside.as_slice();
    let room = Vec::with_capacity(alloc, readings.len().min(FIRST_ROOM))?;
    let pairs = fields_seen(
        alloc,
        readings,
        meta,
        alone.fields,
        above + 1,
        room,
        alone.records,
    )?;
    match members_of(pairs, reading.moves.as_slice()) {
        Ok(members) => Ok(members),
        Err(_) => unreachable!(),
    }
}
