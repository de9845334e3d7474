//! Nodes, objects and lists.
//!
//! `room` is how many more objects and lists may stand in one another.

ghost use Rattle.std.specs.Prelude.{◌≡◌, ◌+◌, ◌*◌, ◌<◌, ◌^◌, map, IfOk};
ghost use Rattle.std.specs.Option.{option_map};
ghost use Rattle.vs_bytes.specs.Outcome.{Reads};
ghost use Rattle.shred_schema.specs.Groups.{list_of as list_kind, groups_from};
ghost use Rattle.shred_schema.specs.Views.{group_of, kind_of, named as of_field};
ghost use Rattle.file_columns.specs.Columns.{named, typed_name, is_bare, typed_in, parts_in, node_in, field_in, each_field, fields_in, list_in, element_in, items_in, group_in};
ghost use Rattle.file_columns.specs.Views.{seen};

use crate::children::children_in;
use crate::elements::{is_list, is_optional, is_repeated, is_required, prim_of};
use crate::members::{are_members, find_named, one_leaf, placed, read_value};
use crate::names::names_repeat;
use crate::places::{Child, Levels, PlacedLeaf, past};
use shred_schema::{FieldList, Node, Slot, Typed};
use sqlite_items::{Boxed, Items};
use std::alloc::Global;
use vs_bytes::{Absent, NoMemory, Refused, Text};

fn is_bare(value: Slot, typed: &Typed) -> bool
    ensures { result ≡ is_bare value (kind_of typed.now) }
{
    match value {
        Slot::Absent => match typed {
            Typed::Free => true,
            Typed::Prim(_) => false,
            Typed::Fields(_) => false,
            Typed::Items(_) => false,
        },
        Slot::Required => false,
        Slot::Optional => false,
    }
}

/// The value and the typed value of a node.
#[cycle(nodes)]
pub(crate) fn read_parts(
    alloc: Global,
    room: u32,
    levels: Levels,
    children: &[Child<'_>],
) -> Result<(Node, Vec<PlacedLeaf>), Refused<Absent>>
    requires rep { levels.rep + 1 + 4 * room < 2 ^ 15 }
    requires def { levels.def + 1 + 4 * room < 2 ^ 15 }
    ensures { Reads (λ r. (group_of r.0, r.1.items)) result (parts_in (group_in room) levels (map seen children.now)) }
{
    let (value, mut leaves) = read_value(alloc, levels, children)?;
    let (typed, more) = read_typed(alloc, room, levels, children)?;
    if is_bare(value, &typed) {
        return Err(Refused::Fault(Absent));
    }
    leaves.extend_from_slice(more.as_slice())?;
    Ok((Node { value, typed }, leaves))
}

#[cycle(nodes)]
fn read_typed(
    alloc: Global,
    room: u32,
    levels: Levels,
    children: &[Child<'_>],
) -> Result<(Typed, Vec<PlacedLeaf>), Refused<Absent>>
    requires rep { levels.rep + 1 + 4 * room < 2 ^ 15 }
    requires def { levels.def + 1 + 4 * room < 2 ^ 15 }
    ensures { Reads (λ r. (kind_of r.0, r.1.items)) result (typed_in (group_in room) levels (named typed_name (map seen children.now))) }
{
    match find_named(children, b"typed_value") {
        Some(child) => read_typed_value(alloc, room, levels, &child),
        None => Ok((Typed::Free, Vec::new(alloc))),
    }
}

#[cycle(nodes)]
fn read_typed_value(
    alloc: Global,
    room: u32,
    levels: Levels,
    child: &Child<'_>,
) -> Result<(Typed, Vec<PlacedLeaf>), Refused<Absent>>
    requires rep { levels.rep + 1 + 4 * room < 2 ^ 15 }
    requires def { levels.def + 1 + 4 * room < 2 ^ 15 }
    ensures { Reads (λ r. (kind_of r.0, r.1.items)) result (typed_in (group_in room) levels (Some (seen child.now))) }
{
    if !is_optional(child.element) {
        return Err(Refused::Fault(Absent));
    }
    if !child.element.is_leaf() {
        return read_group(alloc, room, past(child.element, levels), child);
    }
    let prim = prim_of(child.element);
    let leaves = one_leaf(alloc, placed(prim, levels, child))?;
    Ok((Typed::Prim(prim), leaves))
}

// The group of a typed value, with the levels at it.
#[cycle(nodes)]
#[tactic(auto, using(crate::proofs::Rooms::no_room, crate::proofs::Rooms::room_for_list, crate::proofs::Rooms::room_for_object))]
fn read_group(
    alloc: Global,
    room: u32,
    levels: Levels,
    child: &Child<'_>,
) -> Result<(Typed, Vec<PlacedLeaf>), Refused<Absent>>
    requires rep { levels.rep + 4 * room < 2 ^ 15 }
    requires def { levels.def + 4 * room < 2 ^ 15 }
    ensures { Reads (λ r. (kind_of r.0, r.1.items)) result (group_in room levels (seen child.now)) }
{
    if room == 0 {
        return Err(Refused::Fault(Absent));
    }
    let children = children_in(alloc, child)?;
    if is_list(child.element) {
        read_items(alloc, room - 1, levels, children.as_slice())
    } else {
        read_fields(alloc, room - 1, levels, children.as_slice())
    }
}

#[cycle(nodes)]
fn read_items(
    alloc: Global,
    room: u32,
    levels: Levels,
    children: &[Child<'_>],
) -> Result<(Typed, Vec<PlacedLeaf>), Refused<Absent>>
    requires rep { levels.rep + 3 + 4 * room < 2 ^ 15 }
    requires def { levels.def + 3 + 4 * room < 2 ^ 15 }
    ensures { Reads (λ r. (kind_of r.0, r.1.items)) result (items_in (node_in (group_in room)) levels (map seen children.now)) }
{
    let [list] = children else {
        return Err(Refused::Fault(Absent));
    };
    if !is_repeated(list.element) || list.element.is_leaf() {
        return Err(Refused::Fault(Absent));
    }
    let inside = children_in(alloc, list)?;
    let (node, leaves) = read_element(alloc, room, past(list.element, levels), inside.as_slice())?;
    Ok((list_of(alloc, node)?, leaves))
}

fn list_of(alloc: Global, node: Node) -> Result<Typed, NoMemory>
    ensures { IfOk result (λ typed. kind_of typed ≡ list_kind (group_of node)) }
{
    let node = Boxed::new(alloc, node)?;
    Ok(Typed::Items(node))
}

#[cycle(nodes)]
fn read_element(
    alloc: Global,
    room: u32,
    levels: Levels,
    children: &[Child<'_>],
) -> Result<(Node, Vec<PlacedLeaf>), Refused<Absent>>
    requires rep { levels.rep + 2 + 4 * room < 2 ^ 15 }
    requires def { levels.def + 2 + 4 * room < 2 ^ 15 }
    ensures { Reads (λ r. (group_of r.0, r.1.items)) result (element_in (node_in (group_in room)) levels (map seen children.now)) }
{
    let [element] = children else {
        return Err(Refused::Fault(Absent));
    };
    read_field(alloc, room, levels, element)
}

#[cycle(nodes)]
#[tactic(auto, unfolding(crate::specs::Columns::field_in))]
fn read_field(
    alloc: Global,
    room: u32,
    levels: Levels,
    child: &Child<'_>,
) -> Result<(Node, Vec<PlacedLeaf>), Refused<Absent>>
    requires rep { levels.rep + 2 + 4 * room < 2 ^ 15 }
    requires def { levels.def + 2 + 4 * room < 2 ^ 15 }
    ensures { Reads (λ r. (group_of r.0, r.1.items)) result (field_in (node_in (group_in room)) levels (seen child.now)) }
{
    if !is_required(child.element) {
        return Err(Refused::Fault(Absent));
    }
    if child.element.is_leaf() {
        return Err(Refused::Fault(Absent));
    }
    let children = children_in(alloc, child)?;
    read_node(
        alloc,
        room,
        past(child.element, levels),
        children.as_slice(),
    )
}

#[cycle(nodes)]
#[tactic(auto, unfolding(crate::specs::Columns::node_in))]
fn read_node(
    alloc: Global,
    room: u32,
    levels: Levels,
    children: &[Child<'_>],
) -> Result<(Node, Vec<PlacedLeaf>), Refused<Absent>>
    requires rep { levels.rep + 1 + 4 * room < 2 ^ 15 }
    requires def { levels.def + 1 + 4 * room < 2 ^ 15 }
    ensures { Reads (λ r. (group_of r.0, r.1.items)) result (node_in (group_in room) levels (map seen children.now)) }
{
    let are = are_members(alloc, children)?;
    if !are {
        return Err(Refused::Fault(Absent));
    }
    read_parts(alloc, room, levels, children)
}

#[cycle(nodes)]
#[tactic(auto, unfolding(crate::specs::Columns::fields_in))]
fn read_fields(
    alloc: Global,
    room: u32,
    levels: Levels,
    children: &[Child<'_>],
) -> Result<(Typed, Vec<PlacedLeaf>), Refused<Absent>>
    requires rep { levels.rep + 3 + 4 * room < 2 ^ 15 }
    requires def { levels.def + 3 + 4 * room < 2 ^ 15 }
    ensures { Reads (λ r. (kind_of r.0, r.1.items)) result (fields_in (node_in (group_in room)) levels (map seen children.now)) }
{
    if children.is_empty() {
        return Err(Refused::Fault(Absent));
    }
    let repeated = names_repeat(alloc, children)?;
    if repeated {
        return Err(Refused::Fault(Absent));
    }
    let (fields, leaves) = read_each_field(alloc, room, levels, children)?;
    Ok((Typed::Fields(FieldList::from_items(fields)), leaves))
}

#[cycle(nodes)]
fn read_each_field(
    alloc: Global,
    room: u32,
    levels: Levels,
    children: &[Child<'_>],
) -> Result<(Items<(Text, Node)>, Vec<PlacedLeaf>), Refused<Absent>>
    requires rep { levels.rep + 2 + 4 * room < 2 ^ 15 }
    requires def { levels.def + 2 + 4 * room < 2 ^ 15 }
    ensures { Reads (λ r. (groups_from (map of_field r.0), r.1.items)) result (each_field (node_in (group_in room)) levels (map seen children.now)) }
{
    let mut fields = Items::new(alloc);
    let mut leaves = Vec::new(alloc);
    for child in children {
        let (node, more) = read_field(alloc, room, levels, child)?;
        let name = Text::from_str(alloc, child.element.name.as_str())?;
        fields.push((name, node))?;
        leaves.extend_from_slice(more.as_slice())?;
    }
    Ok((fields, leaves))
}
