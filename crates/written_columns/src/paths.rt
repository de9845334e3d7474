//! The schema paths of leaves.

ghost use Rattle.std.specs.Prelude.{◌≡◌, ◌++◌, ◌∷◌, [], map, IfOk, OnOk};
ghost use Rattle.shred_schema.specs.Groups.{groups_from, list_of};
ghost use Rattle.shred_schema.specs.Views.{group_of, kind_of, named};
ghost use Rattle.written_columns.specs.Written.{typed_name, value_paths, member_paths, typed_paths, field_paths, column_paths};

use shred_schema::{Column, Node, Slot, Typed};
use std::alloc::Global;
use vs_bytes::{Bytes, NoMemory, Sequence, Text};

/// The names from a column down to a leaf.
pub type SchemaPath = Sequence<Bytes>;

/// Schema paths in the order of the leaves.
pub type PathList = Sequence<SchemaPath>;

/// The schema path of each leaf of a column of this name.
pub fn leaf_paths(alloc: Global, column: &Column, name: &str) -> Result<PathList, NoMemory>
    ensures { IfOk result (λ paths. paths ≡ column_paths name.now (group_of column.now.node)) }
{
    let way = longer(alloc, &[], name.as_bytes())?;
    let mut into = Sequence::new(alloc);
    into.push(longer(alloc, way.as_slice(), b"metadata")?)?;
    put_members(alloc, &column.node, way.as_slice(), &mut into)?;
    Ok(into)
}

// A path with one name more.
fn longer(alloc: Global, way: &[Bytes], name: &[u8]) -> Result<SchemaPath, NoMemory>
    ensures { IfOk result (λ path. path ≡ way.now ++ name.now ∷ []) }
{
    let mut path = Sequence::new(alloc);
    for part in way {
        path.push(Bytes::from_slice(alloc, part.as_slice())?)?;
    }
    path.push(Bytes::from_slice(alloc, name)?)?;
    Ok(path)
}

// The path of a leaf of this name.
fn put_leaf(alloc: Global, way: &[Bytes], name: &[u8], into: &mut PathList) -> Result<(), NoMemory>
    ensures { OnOk result (into.new ≡ into.old ++ (way.now ++ name.now ∷ []) ∷ []) }
{
    into.push(longer(alloc, way, name)?)
}

#[cycle(paths)]
fn put_members(
    alloc: Global,
    node: &Node,
    way: &[Bytes],
    into: &mut PathList,
) -> Result<(), NoMemory>
    ensures { OnOk result (into.new ≡ into.old ++ member_paths (group_of node.now) way.now) }
{
    put_value(alloc, node.value, way, into)?;
    put_typed(alloc, &node.typed, way, into)
}

fn put_value(alloc: Global, value: Slot, way: &[Bytes], into: &mut PathList) -> Result<(), NoMemory>
    ensures { OnOk result (into.new ≡ into.old ++ value_paths way.now value) }
{
    match value {
        Slot::Absent => Ok(()),
        Slot::Required => put_leaf(alloc, way, b"value", into),
        Slot::Optional => put_leaf(alloc, way, b"value", into),
    }
}

#[cycle(paths)]
fn put_typed(
    alloc: Global,
    typed: &Typed,
    way: &[Bytes],
    into: &mut PathList,
) -> Result<(), NoMemory>
    ensures { OnOk result (into.new ≡ into.old ++ typed_paths (kind_of typed.now) way.now) }
{
    match typed {
        Typed::Free => Ok(()),
        Typed::Prim(_) => put_leaf(alloc, way, b"typed_value", into),
        Typed::Fields(fields) => put_object(alloc, fields.as_slice(), way, into),
        Typed::Items(node) => put_list(alloc, node.get(), way, into),
    }
}

#[cycle(paths)]
fn put_object(
    alloc: Global,
    fields: &[(Text, Node)],
    way: &[Bytes],
    into: &mut PathList,
) -> Result<(), NoMemory>
    ensures { OnOk result (into.new ≡ into.old ++ field_paths (groups_from (map named fields.now)) (way.now ++ typed_name ∷ [])) }
{
    let inside = longer(alloc, way, b"typed_value")?;
    put_fields(alloc, fields, inside.as_slice(), into)
}

#[cycle(paths)]
fn put_list(alloc: Global, node: &Node, way: &[Bytes], into: &mut PathList) -> Result<(), NoMemory>
    ensures { OnOk result (into.new ≡ into.old ++ typed_paths (list_of (group_of node.now)) way.now) }
{
    let typed = longer(alloc, way, b"typed_value")?;
    let list = longer(alloc, typed.as_slice(), b"list")?;
    let element = longer(alloc, list.as_slice(), b"element")?;
    put_members(alloc, node, element.as_slice(), into)
}

#[cycle(paths)]
fn put_fields(
    alloc: Global,
    fields: &[(Text, Node)],
    way: &[Bytes],
    into: &mut PathList,
) -> Result<(), NoMemory>
    ensures { OnOk result (into.new ≡ into.old ++ field_paths (groups_from (map named fields.now)) way.now) }
{
    for k in 0..fields.len() {
        let inside = longer(alloc, way, fields[k].0.as_bytes())?;
        put_members(alloc, &fields[k].1, inside.as_slice(), into)?;
    }
    Ok(())
}
