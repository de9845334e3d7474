//! Schema elements (parquet.thrift, SchemaElement).
//!
//! The fields that parquet.thrift has beside these are passed over, and never written.

ghost use Rattle.std.specs.Prelude.{◌≡◌, ℤ, Option};
ghost use Rattle.vs_bytes.specs.Outcome.{Makes};
ghost use Rattle.thrift_compact.specs.Numbers.{mapped};
ghost use Rattle.thrift_compact.specs.Trees.{Value};
ghost use Rattle.thrift_structs.specs.Entries.{optional_counted};
ghost use Rattle.schema_elements.specs.SchemaElements.{element_shapes, element_start, element_put, element_finish};

use crate::entries::Words;
use crate::logical_types::{Logical, LogicalDraft};
use std::alloc::Global;
use thrift_compact::{Int32, Slot, pass};
use thrift_structs::{Draft, StructOf, put};
use vs_bytes::{Refusal, Sequence, Text};

/// An element of a schema, which is a tree: a group, or a leaf. The elements stand in the list with each group
/// directly before its children.
#[derive(Debug, Drop)]
pub struct SchemaElement {
    /// The physical type of a leaf. A group has none.
    pub kind: Option<i32>,
    /// How many bytes each value of a leaf of type FIXED_LEN_BYTE_ARRAY has.
    pub type_length: Option<i32>,
    /// Whether it is required (0), optional (1) or repeated (2).
    pub repetition_type: Option<i32>,
    /// Its name.
    pub name: Text,
    /// How many children a group has.
    pub num_children: Option<i32>,
    /// The annotation in the older form.
    pub converted_type: Option<i32>,
    /// Of a decimal, in the older form: how many digits stand after the point.
    pub scale: Option<i32>,
    /// Of a decimal, in the older form: how many digits it has.
    pub precision: Option<i32>,
    /// The annotation in the newer form.
    pub logical_type: Option<Logical>,
}

/// Elements in the order of the file.
pub type ElementList = Sequence<SchemaElement>;

fn optional_counted(slot: Slot<i32>) -> Option<Option<i32>>
    ensures { result ≡ optional_counted slot }
{
    match slot {
        Slot::Missing => Some(None),
        Slot::Found(value) if 0 <= value => Some(Some(value)),
        _ => None,
    }
}

/// The slots of SchemaElement.
#[derive(Drop)]
pub struct ElementSlots {
    kind: Slot<i32>,
    type_length: Slot<i32>,
    repetition_type: Slot<i32>,
    name: Slot<Text>,
    num_children: Slot<i32>,
    converted_type: Slot<i32>,
    scale: Slot<i32>,
    precision: Slot<i32>,
    logical_type: Slot<Logical>,
}

/// How SchemaElement is read, and written.
pub struct ElementDraft;

impl Draft for ElementDraft {
    type Held = ElementSlots;

    type Item = SchemaElement;

    ghost shapes = { element_shapes };

    ghost start = { element_start };

    ghost put = { element_put };

    ghost finish = { element_finish };

    fn start() -> ElementSlots {
        ElementSlots {
            kind: Slot::Missing,
            type_length: Slot::Missing,
            repetition_type: Slot::Missing,
            name: Slot::Missing,
            num_children: Slot::Missing,
            converted_type: Slot::Missing,
            scale: Slot::Missing,
            precision: Slot::Missing,
            logical_type: Slot::Missing,
        }
    }

    #[tactic(auto, unfolding(thrift_compact::specs::Trees::known_at, thrift_compact::specs::Trees::at_shape, crate::specs::SchemaElements::element_shapes, crate::specs::SchemaElements::element_put))]
    fn field<'a>(
        held: &mut ElementSlots,
        alloc: Global,
        id: i16,
        kind: u8,
        bytes: &'a [u8],
    ) -> Result<&'a [u8], Refusal> {
        match id {
            1 => put::<Int32>(alloc, &mut held.kind, kind, bytes),
            2 => put::<Int32>(alloc, &mut held.type_length, kind, bytes),
            3 => put::<Int32>(alloc, &mut held.repetition_type, kind, bytes),
            4 => put::<Words>(alloc, &mut held.name, kind, bytes),
            5 => put::<Int32>(alloc, &mut held.num_children, kind, bytes),
            6 => put::<Int32>(alloc, &mut held.converted_type, kind, bytes),
            7 => put::<Int32>(alloc, &mut held.scale, kind, bytes),
            8 => put::<Int32>(alloc, &mut held.precision, kind, bytes),
            10 => put::<StructOf<LogicalDraft>>(alloc, &mut held.logical_type, kind, bytes),
            _ => Ok(pass(bytes, kind)?),
        }
    }

    #[tactic(auto, unfolding(crate::specs::SchemaElements::element_finish))]
    fn finished(held: ElementSlots) -> Option<SchemaElement> {
        Some(SchemaElement {
            kind: held.kind.optional()?,
            type_length: held.type_length.optional()?,
            repetition_type: held.repetition_type.optional()?,
            name: held.name.required()?,
            num_children: optional_counted(held.num_children)?,
            converted_type: held.converted_type.optional()?,
            scale: held.scale.optional()?,
            precision: held.precision.optional()?,
            logical_type: held.logical_type.optional()?,
        })
    }
}
