//! How many leaf columns a schema has.

ghost use Rattle.std.specs.Prelude.{◌≡◌, ◌+◌, nat_le, map};
ghost use Rattle.shred_schema.specs.Groups.{groups_from, groups_width, slot_width, kind_width, width};
ghost use Rattle.shred_schema.specs.Views.{group_of, kind_of, named};
ghost use Rattle.schema_parsing.specs.Limits.{most_leaves};
ghost use Rattle.schema_parsing.specs.Parts.{room_left};

use shred_schema::{Node, Slot, Typed};
use vs_bytes::Text;

// The most leaves of a schema, but for the leaf of the metadata.
const MAX_LEAVES: u32 = 127;

fn room_after_value(slot: Slot, room: u32) -> Option<u32>
    ensures { result ≡ room_left room (slot_width slot) }
{
    match slot {
        Slot::Absent => Some(room),
        Slot::Required => room.checked_sub(1),
        Slot::Optional => room.checked_sub(1),
    }
}

// How much room for leaves is left after a node's, where they have room.
#[cycle(leaves)]
fn room_after(node: &Node, room: u32) -> Option<u32>
    ensures left { result ≡ room_left room (width (group_of node.now)) }
{
    let left = room_after_value(node.value, room)?;
    match &node.typed {
        Typed::Free => Some(left),
        Typed::Prim(_) => left.checked_sub(1),
        Typed::Fields(fields) => room_after_fields(fields.as_slice(), left),
        Typed::Items(item) => room_after(item.get(), left),
    }
}

#[cycle(leaves)]
fn room_after_fields(fields: &[(Text, Node)], room: u32) -> Option<u32>
    ensures left { result ≡ room_left room (groups_width (groups_from (map named fields.now))) }
{
    let mut left = room;
    for field in fields {
        left = room_after(&field.1, left)?;
    }
    Some(left)
}

/// Whether a schema has no more leaves than one may have.
pub(crate) fn are_few(node: &Node) -> bool
    ensures { result ≡ nat_le (width (group_of node.now) + 1) most_leaves }
{
    room_after(node, MAX_LEAVES).is_some()
}
