//! Levels, and leaves with their places.

ghost use Rattle.std.specs.Prelude.{◌≡◌, ◌+◌, ◌<◌, ◌≤◌, ◌^◌, length};
ghost use Rattle.file_columns.specs.Columns.{past};

use crate::elements::{is_optional, is_repeated};
use schema_elements::SchemaElement;
use vs_bytes::Leaf;

/// Levels at an element: how many repeated elements stand round it, itself included, and how many that are optional or
/// repeated.
#[derive(Clone, Copy, Drop)]
pub struct Levels {
    pub rep: u16,
    pub def: u16,
}

/// A leaf, and how many leaves stand before it in the schema.
#[derive(Clone, Copy, Drop)]
pub struct PlacedLeaf {
    pub leaf: Leaf,
    pub place: usize,
}

/// An element, what follows it in the schema, and how many leaves stand before it.
#[derive(Clone, Copy, Drop)]
pub struct Child<'a> {
    pub element: &'a SchemaElement,
    pub inside: &'a [SchemaElement],
    pub place: usize,
    // Leaves don't outnumber the elements of a schema.
    ghost within: { place + length inside.now < 2 ^ 64 },
}

/// The levels at an element inside others.
#[tactic(auto, unfolding(crate::specs::Columns::past))]
pub(crate) fn past(element: &SchemaElement, levels: Levels) -> Levels
    requires rep { levels.rep + 1 < 2 ^ 16 }
    requires def { levels.def + 1 < 2 ^ 16 }
    ensures exact { result ≡ past element.now levels }
    ensures rep { result.rep ≤ levels.rep + 1 }
    ensures def { result.def ≤ levels.def + 1 }
{
    if is_repeated(element) {
        return Levels {
            rep: levels.rep + 1,
            def: levels.def + 1,
        };
    }
    if is_optional(element) {
        return Levels {
            rep: levels.rep,
            def: levels.def + 1,
        };
    }
    levels
}
