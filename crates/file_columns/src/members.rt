//! The members of a node: its value, its typed value, and at the top the metadata.

ghost use Rattle.std.specs.Prelude.{◌≡◌, ◌+◌, ◌<◌, ◌^◌, [], ◌∷◌, map, IfOk};
ghost use Rattle.std.specs.List.{list_all};
ghost use Rattle.vs_bytes.specs.Outcome.{Finds, Reads};
ghost use Rattle.file_columns.specs.Columns.{named, name_of, is_member, are_members, is_top_member, are_top_members, placed, slot_of, value_in, value_name, metadata_in, metadata_name};
ghost use Rattle.file_columns.specs.Views.{seen};

use crate::elements::{is_binary, is_optional, is_required, type_of};
use crate::names::names_repeat;
use crate::places::{Child, Levels, PlacedLeaf, past};
use schema_elements::SchemaElement;
use shred_schema::Slot;
use std::alloc::Global;
use vs_bytes::{Absent, Leaf, NoMemory, Prim, Refused};

/// The first element of a name.
pub(crate) fn find_named<'a>(children: &[Child<'a>], name: &[u8]) -> Option<Child<'a>>
    ensures { Finds seen result (named name.now (map seen children.now)) }
{
    let mut rest = children;
    while let [child, others @ ..] = rest {
        if child.element.name.as_bytes() == name {
            return Some(*child);
        }
        rest = others;
    }
    None
}

#[tactic(auto, unfolding(crate::specs::Columns::is_member))]
fn is_member(name: &[u8]) -> bool
    ensures { result ≡ is_member name.now }
{
    name == b"value".as_slice() || name == b"typed_value".as_slice()
}

#[tactic(auto, unfolding(crate::specs::Columns::is_top_member))]
fn is_top_member(name: &[u8]) -> bool
    ensures { result ≡ is_top_member name.now }
{
    name == b"metadata".as_slice() || is_member(name)
}

fn each_is_member(children: &[Child<'_>]) -> bool
    ensures { result ≡ list_all (λ c. is_member (name_of c)) (map seen children.now) }
{
    let mut rest = children;
    while let [child, others @ ..] = rest {
        if !is_member(child.element.name.as_bytes()) {
            return false;
        }
        rest = others;
    }
    true
}

fn each_is_top_member(children: &[Child<'_>]) -> bool
    ensures { result ≡ list_all (λ c. is_top_member (name_of c)) (map seen children.now) }
{
    let mut rest = children;
    while let [child, others @ ..] = rest {
        if !is_top_member(child.element.name.as_bytes()) {
            return false;
        }
        rest = others;
    }
    true
}

/// Whether they are members of a node, and none stands twice.
pub(crate) fn are_members(alloc: Global, children: &[Child<'_>]) -> Result<bool, NoMemory>
    ensures { IfOk result (λ are. are ≡ are_members (map seen children.now)) }
{
    if !each_is_member(children) {
        return Ok(false);
    }
    let repeated = names_repeat(alloc, children)?;
    Ok(!repeated)
}

/// Whether they are members of the node at the top of a column, and none stands twice.
pub(crate) fn are_top_members(alloc: Global, children: &[Child<'_>]) -> Result<bool, NoMemory>
    ensures { IfOk result (λ are. are ≡ are_top_members (map seen children.now)) }
{
    if !each_is_top_member(children) {
        return Ok(false);
    }
    let twice = names_repeat(alloc, children)?;
    Ok(!twice)
}

/// A leaf of a kind, by the levels of the group that it stands in.
pub(crate) fn placed(prim: Prim, levels: Levels, child: &Child<'_>) -> PlacedLeaf
    requires rep { levels.rep + 1 < 2 ^ 16 }
    requires def { levels.def + 1 < 2 ^ 16 }
    ensures { result ≡ placed prim levels (seen child.now) }
{
    let own = past(child.element, levels);
    PlacedLeaf {
        leaf: Leaf {
            rep: own.rep,
            def: own.def,
            phys: type_of(child.element),
            prim,
        },
        place: child.place,
    }
}

/// A list of one leaf.
pub(crate) fn one_leaf(alloc: Global, leaf: PlacedLeaf) -> Result<Vec<PlacedLeaf>, NoMemory>
    ensures { IfOk result (λ leaves. leaves.items ≡ leaf ∷ []) }
{
    let mut leaves = Vec::new(alloc);
    leaves.push(leaf)?;
    Ok(leaves)
}

#[tactic(auto, unfolding(crate::specs::Columns::slot_of))]
fn slot_of(element: &SchemaElement) -> Option<Slot>
    ensures { result ≡ slot_of element.now }
{
    if !is_binary(element) {
        return None;
    }
    if is_required(element) {
        return Some(Slot::Required);
    }
    if is_optional(element) {
        return Some(Slot::Optional);
    }
    None
}

/// The value of a node, and its leaf.
pub(crate) fn read_value(
    alloc: Global,
    levels: Levels,
    children: &[Child<'_>],
) -> Result<(Slot, Vec<PlacedLeaf>), Refused<Absent>>
    requires rep { levels.rep + 1 < 2 ^ 16 }
    requires def { levels.def + 1 < 2 ^ 16 }
    ensures { Reads (λ r. (r.0, r.1.items)) result (value_in levels (named value_name (map seen children.now))) }
{
    let Some(child) = find_named(children, b"value") else {
        return Ok((Slot::Absent, Vec::new(alloc)));
    };
    let Some(slot) = slot_of(child.element) else {
        return Err(Refused::Fault(Absent));
    };
    let leaves = one_leaf(alloc, placed(Prim::Raw, levels, &child))?;
    Ok((slot, leaves))
}

/// The leaf of a column's metadata.
pub(crate) fn read_metadata(levels: Levels, children: &[Child<'_>]) -> Option<PlacedLeaf>
    requires rep { levels.rep + 1 < 2 ^ 16 }
    requires def { levels.def + 1 < 2 ^ 16 }
    ensures { result ≡ metadata_in levels (named metadata_name (map seen children.now)) }
{
    let child = find_named(children, b"metadata")?;
    if !is_binary(child.element) || !is_required(child.element) {
        return None;
    }
    Some(placed(Prim::Raw, levels, &child))
}
