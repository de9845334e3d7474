//! How many leaf columns a node has.

ghost use Rattle.std.specs.Prelude.{◌≡◌, ◌<◌, ◌^◌, map};
ghost use Rattle.shred_schema.specs.Groups.{groups_from, slot_width, width, kind_width, groups_width};
ghost use Rattle.shred_schema.specs.Views.{group_of, kind_of, named};

use crate::nodes::{Node, Slot, Typed};
use vs_bytes::Text;

/// How many leaf columns a node has, with all inside it.
#[cycle(width)]
pub fn width(node: &Node) -> usize
    requires { width (group_of node.now) < 2 ^ 32 }
    ensures { result ≡ width (group_of node.now) }
{
    slot_width(node.value) + typed_width(&node.typed)
}

/// How many leaf columns a value has.
pub fn slot_width(value: Slot) -> usize
    ensures { result ≡ slot_width value }
{
    match value {
        Slot::Absent => 0,
        Slot::Required => 1,
        Slot::Optional => 1,
    }
}

/// How many leaf columns the typed part of a node has.
#[cycle(width)]
pub fn typed_width(typed: &Typed) -> usize
    requires { kind_width (kind_of typed.now) < 2 ^ 32 }
    ensures { result ≡ kind_width (kind_of typed.now) }
{
    match typed {
        Typed::Free => 0,
        Typed::Prim(_) => 1,
        Typed::Fields(fields) => fields_width(fields.as_slice()),
        Typed::Items(node) => width(node.get()),
    }
}

#[cycle(width)]
fn fields_width(fields: &[(Text, Node)]) -> usize
    requires { groups_width (groups_from (map named fields.now)) < 2 ^ 32 }
    ensures { result ≡ groups_width (groups_from (map named fields.now)) }
{
    let mut total = 0;
    for k in 0..fields.len() {
        total += width(&fields[k].1);
    }
    total
}
