//! Records in which each integer and each field is there, and each list has five items.

ghost use Rattle.std.specs.Prelude.{◌≡◌, map, IfOk};
ghost use Rattle.std.specs.Option.{option_map};
ghost use Rattle.shred_schema.specs.Groups.{scalar};
ghost use Rattle.shred_schema.specs.Recs.{EachRec, recs_from};
ghost use Rattle.shred_schema.specs.Shapes.{IsOf, PartIsOf, FieldsAreOf};
ghost use Rattle.shred_schema.specs.Views.{group_of, kind_of, groups_of, part_or_empty, part_of, rec_of};

use shred_schema::{FieldList, Node, Part, Record, RecordList, Slot, Typed};
use sqlite_items::Items;
use std::alloc::Global;
use vs_bytes::{Bytes, Cell, NoMemory, Prim};

const ITEMS: usize = 5;

/// A record of a node.
#[cycle(fill)]
pub(crate) fn filled(alloc: Global, node: &Node) -> Result<Record, NoMemory>
    ensures { IfOk result (λ made. IsOf (group_of node.now) (rec_of made)) }
{
    let value = match node.value {
        Slot::Required => Some(Bytes::new()),
        _ => None,
    };
    let typed = filled_part(alloc, &node.typed)?;
    Ok(Record { value, typed })
}

#[cycle(fill)]
fn filled_part(alloc: Global, typed: &Typed) -> Result<Option<Part>, NoMemory>
    ensures { IfOk result (λ made. PartIsOf (kind_of typed.now) (part_or_empty (option_map part_of made))) }
{
    match typed {
        Typed::Free => Ok(None),
        Typed::Prim(prim) => Ok(filled_cell(*prim)),
        Typed::Fields(fields) => Ok(Some(Part::Fields(filled_fields(alloc, fields)?))),
        Typed::Items(element) => Ok(Some(Part::Items(filled_items(alloc, element.get())?))),
    }
}

fn filled_cell(prim: Prim) -> Option<Part>
    ensures { PartIsOf (scalar prim) (part_or_empty (option_map part_of result)) }
{
    match prim {
        Prim::Int64 => Some(Part::Cell(Cell::Num(5))),
        _ => None,
    }
}

#[cycle(fill)]
fn filled_fields(alloc: Global, fields: &FieldList) -> Result<RecordList, NoMemory>
    ensures { IfOk result (λ made. FieldsAreOf (groups_of fields.now) (recs_from (map rec_of made))) }
{
    let members = fields.as_slice();
    let mut records = Vec::with_capacity(alloc, members.len())?;
    for k in 0..members.len() {
        let node = &members[k].1;
        records.push(filled(alloc, node)?)?;
    }
    Ok(Items::from_vec(records))
}

#[cycle(fill)]
fn filled_items(alloc: Global, element: &Node) -> Result<RecordList, NoMemory>
    ensures { IfOk result (λ made. EachRec (IsOf (group_of element.now)) (recs_from (map rec_of made))) }
{
    let mut records = Vec::with_capacity(alloc, ITEMS)?;
    for _item in 0..ITEMS {
        records.push(filled(alloc, element)?)?;
    }
    Ok(Items::from_vec(records))
}
