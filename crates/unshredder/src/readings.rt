//! How the nodes of a column are read: what depends on the mask alone, worked out once for all rows.

ghost use Rattle.std.specs.Prelude.{◌≡◌, ◌+◌, ◌<◌, ◌^◌, map, IfOk, OnOk};
ghost use Rattle.std.specs.List.{list_any};
ghost use Rattle.shred_schema.specs.Groups.{width, kind_width, groups_width, groups_from};
ghost use Rattle.shred_schema.specs.Ranges.{reads, is_any_read};
ghost use Rattle.shred_schema.specs.Views.{group_of, kind_of, named};
ghost use Rattle.unshredder.specs.Readings.{IsReading, AreInside, AreReadings, IsFieldReading, IsPut};
ghost use Rattle.unshredder.specs.declared.readings.Reading.{out-Reading};

use crate::leaves::{is_any_read, is_tested};
use crate::places::{Moves, moves_of};
use shred_schema::{Node, Typed, slot_width, typed_width, width};
use sqlite_items::Items;
use std::alloc::Global;
use vs_bytes::{NoMemory, Text};

/// How a node is read under a mask, with the same of what is inside it: the fields of which some leaf is read, or the
/// element.
#[cycle(reading)]
#[derive(Drop)]
pub struct Reading {
    // Which field of its object the node is, counted from 0. An element, or the top, is at 0.
    pub(crate) place: usize,
    // Whether its value is read.
    pub(crate) value: bool,
    // Whether some leaf of its typed part is read.
    pub(crate) typed: bool,
    // Whether it tells something that both parts are missing.
    pub(crate) tested: bool,
    // Whether some value is read, its own or one inside it.
    pub(crate) values: bool,
    // Moves that bring the members of the fields that are read into the order of their names.
    pub(crate) moves: Moves,
    // The readings of the fields of which some leaf is read, in order; or that of the element. A row passes over the
    // other fields.
    pub(crate) inside: Items<Reading>,
}

/// How a node is read whose leaves begin at `leaf`, and which is the field at `place` of its object.
#[cycle(make)]
pub(crate) fn reading_of(
    alloc: Global,
    mask: &[bool],
    node: &Node,
    leaf: usize,
    place: usize,
) -> Result<Reading, NoMemory>
    requires { leaf + width (group_of node.now) < 2 ^ 32 }
    ensures { IfOk result (λ reading. IsFieldReading (reads mask.now) (group_of node.now) place leaf reading) }
{
    let first = slot_width(node.value);
    let count = typed_width(&node.typed);
    let inside = inside_of(alloc, mask, &node.typed, leaf + first)?;
    let moves = typed_moves(alloc, &node.typed, inside.as_slice())?;
    let value = is_any_read(mask, leaf, first);
    let values = value || reads_values(inside.as_slice());
    Ok(Reading {
        place,
        value,
        typed: is_any_read(mask, leaf + first, count),
        tested: is_tested(mask, leaf, node),
        values,
        moves,
        inside,
    })
}

// Whether some of the readings reads a value.
fn reads_values(inside: &[Reading]) -> bool
    ensures { result ≡ list_any (λ reading. (out-Reading reading).values) inside.now }
{
    inside.iter().any(|reading| reading.values)
}

fn typed_moves(alloc: Global, typed: &Typed, inside: &[Reading]) -> Result<Moves, NoMemory> {
    match typed {
        Typed::Fields(fields) => moves_of(alloc, fields.as_slice(), inside),
        _ => Ok(Items::new(alloc)),
    }
}

#[cycle(make)]
fn inside_of(
    alloc: Global,
    mask: &[bool],
    typed: &Typed,
    leaf: usize,
) -> Result<Items<Reading>, NoMemory>
    requires { leaf + kind_width (kind_of typed.now) < 2 ^ 32 }
    ensures { IfOk result (λ inside. AreInside (reads mask.now) (kind_of typed.now) leaf inside) }
{
    match typed {
        Typed::Free => Ok(Items::new(alloc)),
        Typed::Prim(_prim) => Ok(Items::new(alloc)),
        Typed::Fields(fields) => readings_of(alloc, mask, fields.as_slice(), leaf),
        Typed::Items(node) => {
            let mut inside = Items::new(alloc);
            inside.push(reading_of(alloc, mask, node.get(), leaf, 0)?)?;
            Ok(inside)
        }
    }
}

#[cycle(make)]
fn readings_of(
    alloc: Global,
    mask: &[bool],
    fields: &[(Text, Node)],
    leaf: usize,
) -> Result<Items<Reading>, NoMemory>
    requires { leaf + groups_width (groups_from (map named fields.now)) < 2 ^ 32 }
    ensures { IfOk result (λ inside. AreReadings (reads mask.now) (groups_from (map named fields.now)) 0 leaf inside) }
{
    let mut inside = Items::new(alloc);
    let mut first = leaf;
    for k in 0..fields.len() {
        let node = &fields[k].1;
        put_reading(alloc, mask, node, first, k, &mut inside)?;
        first += width(node);
    }
    Ok(inside)
}

// Puts how the field at `place` is read after those before it, where some leaf of it is read.
#[cycle(make)]
fn put_reading(
    alloc: Global,
    mask: &[bool],
    node: &Node,
    leaf: usize,
    place: usize,
    inside: &mut Items<Reading>,
) -> Result<(), NoMemory>
    requires { leaf + width (group_of node.now) < 2 ^ 32 }
    ensures { OnOk result (IsPut (is_any_read (reads mask.now) leaf (width (group_of node.now))) (IsFieldReading (reads mask.now) (group_of node.now) place leaf) inside.old inside.new) }
{
    if is_any_read(mask, leaf, width(node)) {
        let reading = reading_of(alloc, mask, node, leaf, place)?;
        inside.push(reading)?;
    }
    Ok(())
}
