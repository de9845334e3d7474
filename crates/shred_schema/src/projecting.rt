//! A column without the leaves that aren't read.

ghost use Rattle.std.specs.Prelude.{◌≡◌, ◌+◌, ◌<◌, ◌^◌, map, IfOk};
ghost use Rattle.shred_schema.specs.Groups.{groups_from, width, kind_width, groups_width};
ghost use Rattle.shred_schema.specs.Projection.{projected, kind_kept, kind_projected, groups_projected};
ghost use Rattle.shred_schema.specs.Ranges.{reads, none_read};
ghost use Rattle.shred_schema.specs.Views.{group_of, kind_of, groups_of, named};

use crate::nodes::{FieldList, Node, Slot, Typed};
use crate::widths::{slot_width, typed_width, width};
use sqlite_items::Boxed;
use std::alloc::Global;
use vs_bytes::{NoMemory, Text};

/// The node with the leaves that the mask reads, where `leaf` is the number of its first one: their order stays, and
/// the fields of an object that is there keep their places. A typed part of which no leaf is read isn't there.
#[cycle(project)]
pub fn project(alloc: Global, node: &Node, leaf: usize, mask: &[bool]) -> Result<Node, NoMemory>
    requires { leaf + width (group_of node.now) < 2 ^ 32 }
    ensures { IfOk result (λ kept. group_of kept ≡ projected (group_of node.now) leaf (reads mask.now)) }
{
    let value = if is_read(mask, leaf) {
        node.value
    } else {
        Slot::Absent
    };
    let typed = project_typed(alloc, &node.typed, leaf + slot_width(node.value), mask)?;
    Ok(Node { value, typed })
}

fn is_read(mask: &[bool], leaf: usize) -> bool
    ensures { result ≡ reads mask.now leaf }
{
    match mask.get(leaf) {
        Some(read) => *read,
        None => false,
    }
}

// Whether none of `count` leaves from `leaf` on is read.
#[tactic(auto, using(crate::proofs::KeptFields::none_on, crate::proofs::KeptFields::none_hit, crate::proofs::KeptFields::none_end))]
fn none_read(mask: &[bool], leaf: usize, count: usize) -> bool
    requires { leaf + count < 2 ^ 32 }
    ensures { result ≡ none_read (reads mask.now) leaf count }
{
    let end = leaf + count;
    for at in leaf..end {
        if is_read(mask, at) {
            return false;
        }
    }
    true
}

#[cycle(project)]
fn project_typed(
    alloc: Global,
    typed: &Typed,
    leaf: usize,
    mask: &[bool],
) -> Result<Typed, NoMemory>
    requires { leaf + kind_width (kind_of typed.now) < 2 ^ 32 }
    ensures { IfOk result (λ kept. kind_of kept ≡ kind_projected (kind_of typed.now) leaf (reads mask.now)) }
{
    if none_read(mask, leaf, typed_width(typed)) {
        return Ok(Typed::Free);
    }
    keep_typed(alloc, typed, leaf, mask)
}

#[cycle(project)]
fn keep_typed(alloc: Global, typed: &Typed, leaf: usize, mask: &[bool]) -> Result<Typed, NoMemory>
    requires { leaf + kind_width (kind_of typed.now) < 2 ^ 32 }
    ensures { IfOk result (λ kept. kind_of kept ≡ kind_kept (kind_of typed.now) leaf (reads mask.now)) }
{
    match typed {
        Typed::Free => Ok(Typed::Free),
        Typed::Prim(prim) => Ok(Typed::Prim(*prim)),
        Typed::Fields(fields) => {
            let kept = project_fields(alloc, fields.as_slice(), leaf, mask)?;
            Ok(Typed::Fields(kept))
        }
        Typed::Items(node) => {
            let kept = project(alloc, node.get(), leaf, mask)?;
            Ok(Typed::Items(Boxed::new(alloc, kept)?))
        }
    }
}

#[cycle(project)]
fn project_fields(
    alloc: Global,
    fields: &[(Text, Node)],
    leaf: usize,
    mask: &[bool],
) -> Result<FieldList, NoMemory>
    requires { leaf + groups_width (groups_from (map named fields.now)) < 2 ^ 32 }
    ensures { IfOk result (λ kept. groups_of kept ≡ groups_projected (groups_from (map named fields.now)) leaf (reads mask.now)) }
{
    let mut kept = FieldList::new(alloc);
    let mut first = leaf;
    for k in 0..fields.len() {
        let name = Text::from_str(alloc, fields[k].0.as_str())?;
        let node = project(alloc, &fields[k].1, first, mask)?;
        kept.push(name, node)?;
        first += width(&fields[k].1);
    }
    Ok(kept)
}
