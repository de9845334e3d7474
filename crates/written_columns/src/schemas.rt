//! The elements of a column.

ghost use Rattle.std.specs.Prelude.{◌≡◌, ◌++◌, ◌∷◌, [], map, length, ◌≤◌, IfOk, OnOk};
ghost use Rattle.shred_schema.specs.Groups.{groups_from, slot_width, list_of, field, no_groups};
ghost use Rattle.shred_schema.specs.Views.{group_of, kind_of, named};
ghost use Rattle.written_columns.specs.Written.{is_typed, member_count, value_elements, member_elements, typed_elements, field_elements, group_element, typed_name, schema_elements};

use crate::elements::{column_element, group_element, leaf_element, root_element};
use schema_elements::ElementList;
use shred_schema::{Column, Node, Note, Slot, Typed, slot_width};
use std::alloc::Global;
use vs_bytes::{NoMemory, Prim, Sequence, Text};

// FieldRepetitionType of parquet.thrift.
const REQUIRED: u8 = 0;

const OPTIONAL: u8 = 1;

const REPEATED: u8 = 2;

/// The schema of a file with one column: the root, the column of this name, and all inside it.
pub fn schema_elements(alloc: Global, column: &Column, name: &str) -> Result<ElementList, NoMemory>
    ensures { IfOk result (λ list. list ≡ schema_elements column.now.optional name.now (group_of column.now.node)) }
{
    let mut into = Sequence::new(alloc);
    into.push(root_element(alloc)?)?;
    let count = member_count(&column.node) + 1;
    into.push(column_element(alloc, column.optional, name, count)?)?;
    into.push(leaf_element(alloc, Prim::Raw, REQUIRED, "metadata")?)?;
    put_members(alloc, &column.node, &mut into)?;
    Ok(into)
}

fn is_typed(typed: &Typed) -> usize
    ensures count { result ≡ is_typed (kind_of typed.now) }
    ensures most { result ≤ 1 }
{
    match typed {
        Typed::Free => 0,
        Typed::Prim(_) => 1,
        Typed::Fields(_) => 1,
        Typed::Items(_) => 1,
    }
}

fn value_count(value: Slot) -> usize
    ensures count { result ≡ slot_width value }
    ensures most { result ≤ 1 }
{
    slot_width(value)
}

fn member_count(node: &Node) -> usize
    ensures count { result ≡ member_count (group_of node.now) }
    ensures most { result ≤ 2 }
{
    value_count(node.value) + is_typed(&node.typed)
}

#[cycle(elements)]
fn put_members(alloc: Global, node: &Node, into: &mut ElementList) -> Result<(), NoMemory>
    ensures { OnOk result (into.new ≡ into.old ++ member_elements (group_of node.now)) }
{
    put_value(alloc, node.value, into)?;
    put_typed(alloc, &node.typed, into)
}

fn put_value(alloc: Global, value: Slot, into: &mut ElementList) -> Result<(), NoMemory>
    ensures { OnOk result (into.new ≡ into.old ++ value_elements value) }
{
    match value {
        Slot::Absent => Ok(()),
        Slot::Required => into.push(leaf_element(alloc, Prim::Raw, REQUIRED, "value")?),
        Slot::Optional => into.push(leaf_element(alloc, Prim::Raw, OPTIONAL, "value")?),
    }
}

#[cycle(elements)]
fn put_typed(alloc: Global, typed: &Typed, into: &mut ElementList) -> Result<(), NoMemory>
    ensures { OnOk result (into.new ≡ into.old ++ typed_elements (kind_of typed.now)) }
{
    match typed {
        Typed::Free => Ok(()),
        Typed::Prim(prim) => into.push(leaf_element(alloc, *prim, OPTIONAL, "typed_value")?),
        Typed::Fields(fields) => put_object(alloc, fields.as_slice(), into),
        Typed::Items(node) => put_list(alloc, node.get(), into),
    }
}

#[cycle(elements)]
fn put_object(
    alloc: Global,
    fields: &[(Text, Node)],
    into: &mut ElementList,
) -> Result<(), NoMemory>
    ensures { OnOk result (into.new ≡ into.old ++ group_element 1 typed_name (length fields.now) Note.None ∷ field_elements (groups_from (map named fields.now))) }
{
    let group = group_element(alloc, OPTIONAL, "typed_value", fields.len(), Note::None)?;
    into.push(group)?;
    put_fields(alloc, fields, into)
}

#[cycle(elements)]
fn put_list(alloc: Global, node: &Node, into: &mut ElementList) -> Result<(), NoMemory>
    ensures { OnOk result (into.new ≡ into.old ++ typed_elements (list_of (group_of node.now))) }
{
    into.push(group_element(alloc, OPTIONAL, "typed_value", 1, Note::List)?)?;
    into.push(group_element(alloc, REPEATED, "list", 1, Note::None)?)?;
    let element = group_element(alloc, REQUIRED, "element", member_count(node), Note::None)?;
    into.push(element)?;
    put_members(alloc, node, into)
}

#[cycle(elements)]
fn put_fields(
    alloc: Global,
    fields: &[(Text, Node)],
    into: &mut ElementList,
) -> Result<(), NoMemory>
    ensures { OnOk result (into.new ≡ into.old ++ field_elements (groups_from (map named fields.now))) }
{
    for k in 0..fields.len() {
        put_field(alloc, fields[k].0.as_str(), &fields[k].1, into)?;
    }
    Ok(())
}

#[cycle(elements)]
fn put_field(alloc: Global, name: &str, node: &Node, into: &mut ElementList) -> Result<(), NoMemory>
    ensures { OnOk result (into.new ≡ into.old ++ field_elements (field name.now (group_of node.now) no_groups)) }
{
    into.push(group_element(alloc, REQUIRED, name, member_count(node), Note::None)?)?;
    put_members(alloc, node, into)
}
