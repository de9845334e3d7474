//! The leaf columns of a column.

ghost use Rattle.std.specs.Prelude.{◌≡◌, ◌+◌, ◌*◌, ◌<◌, ◌≤◌, ◌^◌, ◌∷◌, [], ◌++◌, map, length, IfOk, OnOk};
ghost use Rattle.shred_schema.specs.Groups.{groups_from, height, kind_height, groups_height, width};
ghost use Rattle.shred_schema.specs.Lawful.{IsWellFormed};
ghost use Rattle.shred_schema.specs.Leaves.{leaf, value_leaves, leaves_of, kind_leaves, groups_leaves, top_level, column_leaves};
ghost use Rattle.shred_schema.specs.Views.{group_of, kind_of, named};

use crate::kinds::form_of;
use crate::nodes::{Column, Node, Slot, Typed};
use std::alloc::Global;
use vs_bytes::{Leaf, NoMemory, Prim, Sequence, Text};

/// Leaf columns in order.
pub type LeafList = Sequence<Leaf>;

/// The leaf columns of a column in the order of the file, with their maximum levels, and with the physical types that
/// are written: first the metadata, then depth first each node's value and the leaves of its typed part.
pub fn leaves(alloc: Global, column: &Column) -> Result<LeafList, NoMemory>
    requires { IsWellFormed (group_of column.now.node) }
    ensures { IfOk result (λ leaves. leaves ≡ column_leaves column.now.optional (group_of column.now.node)) }
{
    let def = top_level(column.optional);
    let mut leaves = Sequence::new(alloc);
    leaves.push(leaf(Prim::Raw, 0, def))?;
    put_node(&column.node, 0, def, &mut leaves)?;
    Ok(leaves)
}

fn top_level(optional: bool) -> u16
    ensures level { result ≡ top_level optional }
    ensures small { result ≤ 1 }
{
    if optional { 1 } else { 0 }
}

fn leaf(prim: Prim, rep: u16, def: u16) -> Leaf
    ensures { result ≡ leaf prim rep def }
{
    let (phys, _) = form_of(prim);
    Leaf {
        rep,
        def,
        phys,
        prim,
    }
}

#[cycle(leaves)]
fn put_node(node: &Node, rep: u16, def: u16, leaves: &mut LeafList) -> Result<(), NoMemory>
    requires rep { rep + height (group_of node.now) < 2 ^ 16 }
    requires def { def + 2 * height (group_of node.now) < 2 ^ 16 }
    ensures { OnOk result (leaves.new ≡ leaves.old ++ leaves_of (group_of node.now) rep def) }
{
    put_value(node.value, rep, def, leaves)?;
    put_typed(&node.typed, rep, def, leaves)
}

fn put_value(value: Slot, rep: u16, def: u16, leaves: &mut LeafList) -> Result<(), NoMemory>
    requires { def + 1 < 2 ^ 16 }
    ensures { OnOk result (leaves.new ≡ leaves.old ++ value_leaves value rep def) }
{
    match value {
        Slot::Absent => Ok(()),
        Slot::Required => leaves.push(leaf(Prim::Raw, rep, def)),
        Slot::Optional => leaves.push(leaf(Prim::Raw, rep, def + 1)),
    }
}

#[cycle(leaves)]
fn put_typed(typed: &Typed, rep: u16, def: u16, leaves: &mut LeafList) -> Result<(), NoMemory>
    requires rep { rep + kind_height (kind_of typed.now) + 1 < 2 ^ 16 }
    requires def { def + 2 * kind_height (kind_of typed.now) + 2 < 2 ^ 16 }
    ensures { OnOk result (leaves.new ≡ leaves.old ++ kind_leaves (kind_of typed.now) rep def) }
{
    match typed {
        Typed::Free => Ok(()),
        Typed::Prim(prim) => leaves.push(leaf(*prim, rep, def + 1)),
        Typed::Fields(fields) => put_fields(fields.as_slice(), rep, def + 1, leaves),
        Typed::Items(node) => put_node(node.get(), rep + 1, def + 2, leaves),
    }
}

#[cycle(leaves)]
fn put_fields(
    fields: &[(Text, Node)],
    rep: u16,
    def: u16,
    leaves: &mut LeafList,
) -> Result<(), NoMemory>
    requires rep { rep + groups_height (groups_from (map named fields.now)) < 2 ^ 16 }
    requires def { def + 2 * groups_height (groups_from (map named fields.now)) < 2 ^ 16 }
    ensures { OnOk result (leaves.new ≡ leaves.old ++ groups_leaves (groups_from (map named fields.now)) rep def) }
{
    for k in 0..fields.len() {
        put_node(&fields[k].1, rep, def, leaves)?;
    }
    Ok(())
}
