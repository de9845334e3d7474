//! The short way for a node of which only the typed part counts: some leaf of it is read, it is there, and no value that
//! is read is.
//!
//! Each call answers `None` where it isn't for the node. `records::seen` then tells what the node means, as it does of
//! every node: nothing but time rests on this module. Decimals and objects inside others take that way.

ghost use Rattle.std.specs.Prelude.{◌≡◌, ℕ, Bool, true, List, map, Some, Ok, IfSome};
ghost use Rattle.std.specs.Option.{option_map};
ghost use Rattle.exact_num.specs.NumberOf.{decimal_of};
ghost use Rattle.json_tree.specs.Json.{number};
ghost use Rattle.shred_schema.specs.Cells.{is_of_prim};
ghost use Rattle.shred_schema.specs.Fits.{tree_of};
ghost use Rattle.shred_schema.specs.Groups.{scalar, object_of, groups_from};
ghost use Rattle.shred_schema.specs.Recs.{cell, fields, recs_from};
ghost use Rattle.shred_schema.specs.Lawful.{AreNodes, MayHold};
ghost use Rattle.shred_schema.specs.Shapes.{HasShape};
ghost use Rattle.shred_schema.specs.Views.{group_of, kind_of, part_of, part_or_empty, rec_of, named};
ghost use Rattle.unshredder.specs.Alone.{IsAlone};
ghost use Rattle.unshredder.specs.Readings.{IsReading};
ghost use Rattle.unshredder.specs.Seen.{seen};

use crate::readings::Reading;
use json_tree::Number;
use shred_schema::{Node, Part, Record, Typed};
use vs_bytes::{Cell, Prim, Text};

// A scalar's cell.
#[derive(Clone, Copy)]
struct CellAlone<'a> {
    prim: Prim,
    cell: &'a Cell,
}

/// The fields of an object of which only the typed part counts, each with its record.
#[derive(Clone, Copy)]
pub(crate) struct FieldsAlone<'a> {
    pub(crate) fields: &'a [(Text, Node)],
    pub(crate) records: &'a [Record],
}

// The typed part, where some leaf of it is read and no value that is read is there.
#[inline(always)]
fn part_alone<'a>(reading: &Reading, rec: &'a Record) -> Option<&'a Part>
    ensures alone { IfSome result (λ part. IsAlone reading.now rec.now.value) }
    ensures part { IfSome result (λ part. rec.now.typed ≡ Some part.now) }
{
    if !reading.typed || (reading.value && rec.value.is_some()) {
        return None;
    }
    match &rec.typed {
        Some(part) => Some(part),
        None => None,
    }
}

// The cell of a scalar that is there.
#[inline(always)]
fn cell_alone<'a>(reading: &Reading, node: &Node, rec: &'a Record) -> Option<CellAlone<'a>>
    ensures alone { IfSome result (λ alone. IsAlone reading.now rec.now.value) }
    ensures kind { IfSome result (λ alone. kind_of node.now.typed ≡ scalar alone.prim) }
    ensures part { IfSome result (λ alone. part_or_empty (option_map part_of rec.now.typed) ≡ cell alone.cell.now) }
{
    match &node.typed {
        Typed::Prim(prim) => match part_alone(reading, rec) {
            Some(part) => match part {
                Part::Cell(cell) => Some(CellAlone { prim: *prim, cell }),
                _ => None,
            },
            None => None,
        },
        _ => None,
    }
}

/// The fields of an object that is there.
#[inline(always)]
pub(crate) fn fields_alone<'a>(
    reading: &Reading,
    node: &'a Node,
    rec: &'a Record,
) -> Option<FieldsAlone<'a>>
    ensures alone { IfSome result (λ alone. IsAlone reading.now rec.now.value) }
    ensures kind { IfSome result (λ alone. kind_of node.now.typed ≡ object_of (groups_from (map named alone.fields.now))) }
    ensures part { IfSome result (λ alone. part_or_empty (option_map part_of rec.now.typed) ≡ fields (recs_from (map rec_of alone.records.now))) }
{
    match &node.typed {
        Typed::Fields(fields) => match part_alone(reading, rec) {
            Some(part) => match part {
                Part::Fields(records) => Some(FieldsAlone {
                    fields: fields.as_slice(),
                    records: records.as_slice(),
                }),
                _ => None,
            },
            None => None,
        },
        _ => None,
    }
}

// The number in a cell of an integer kind.
#[inline(always)]
fn whole_number(prim: Prim, cell: &Cell) -> Option<Number>
    requires kind { MayHold prim }
    requires cell { is_of_prim prim cell.now ≡ true }
    ensures { IfSome result (λ whole. tree_of prim cell.now ≡ number (decimal_of whole)) }
{
    match prim {
        Prim::Decimal { .. } => None,
        _ => match cell {
            Cell::Num(unscaled) => Some(Number::of(*unscaled, 0)),
            _ => None,
        },
    }
}

/// The number of a node of an integer kind of which only the cell counts.
#[inline(always)]
pub(crate) fn number_alone(reading: &Reading, node: &Node, rec: &Record) -> Option<Number>
    requires nodes { AreNodes (group_of node.now) }
    requires shape { HasShape (group_of node.now) (rec_of rec.now) }
    ensures { (mask : ℕ → Bool) (names : List (List ℕ)) (leaf above : ℕ) → IsReading mask (group_of node.now) leaf reading.now → IfSome result (λ whole. seen mask names (group_of node.now) leaf above (rec_of rec.now) ≡ Ok (Some (number (decimal_of whole)))) }
{
    match cell_alone(reading, node, rec) {
        Some(alone) => whole_number(alone.prim, alone.cell),
        None => None,
    }
}
