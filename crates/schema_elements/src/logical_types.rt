//! Logical types (parquet.thrift, LogicalType): what the values of a leaf, or a group, stand for.

ghost use Rattle.std.specs.Prelude.{◌≡◌, ℤ, Option};
ghost use Rattle.vs_bytes.specs.Outcome.{Makes};
ghost use Rattle.thrift_compact.specs.Numbers.{mapped};
ghost use Rattle.thrift_compact.specs.Trees.{Value};
ghost use Rattle.schema_elements.specs.Unions.{none_met};
ghost use Rattle.schema_elements.specs.LogicalTypes.{logical_shapes, logical_put, logical_finish};

use crate::members::{DecimalDraft, EmptyDraft, IntegerDraft, TimeDraft, VariantDraft};
use crate::unions::{UnionSlots, put_member};
use std::alloc::Global;
use thrift_compact::pass;
use thrift_structs::{Draft, StructOf};
use vs_bytes::Refusal;

/// The logical type of a schema element: the first known member of the union LogicalType that stands there.
#[derive(Clone, Copy, Debug)]
pub struct Logical {
    /// The member's id in parquet.thrift, or 0 where no known member stands there.
    pub member: i16,
    /// The first of the member's two fields: of DECIMAL the scale, of TIME and TIMESTAMP whether it is adjusted to
    /// UTC, of INTEGER the bit width, of VARIANT the version of the specification. A truth value is 0 or 1.
    pub first: Option<i32>,
    /// The second of the member's two fields: of DECIMAL the precision, of TIME and TIMESTAMP the unit, as the id
    /// of its first known member, of INTEGER whether it is signed.
    pub second: Option<i32>,
}

/// How LogicalType is read, and written.
pub struct LogicalDraft;

impl Draft for LogicalDraft {
    type Held = UnionSlots;

    type Item = Logical;

    ghost shapes = { logical_shapes };

    ghost start = { none_met };

    ghost put = { logical_put };

    ghost finish = { logical_finish };

    fn start() -> UnionSlots {
        UnionSlots::new()
    }

    #[tactic(auto, unfolding(thrift_compact::specs::Trees::known_at, thrift_compact::specs::Trees::at_shape, crate::specs::LogicalTypes::logical_shapes, crate::specs::LogicalTypes::logical_put))]
    fn field<'a>(
        held: &mut UnionSlots,
        alloc: Global,
        id: i16,
        kind: u8,
        bytes: &'a [u8],
    ) -> Result<&'a [u8], Refusal> {
        match id {
            1 => put_member::<StructOf<EmptyDraft>>(alloc, held, 1, kind, bytes),
            2 => put_member::<StructOf<EmptyDraft>>(alloc, held, 2, kind, bytes),
            3 => put_member::<StructOf<EmptyDraft>>(alloc, held, 3, kind, bytes),
            4 => put_member::<StructOf<EmptyDraft>>(alloc, held, 4, kind, bytes),
            5 => put_member::<StructOf<DecimalDraft>>(alloc, held, 5, kind, bytes),
            6 => put_member::<StructOf<EmptyDraft>>(alloc, held, 6, kind, bytes),
            7 => put_member::<StructOf<TimeDraft>>(alloc, held, 7, kind, bytes),
            8 => put_member::<StructOf<TimeDraft>>(alloc, held, 8, kind, bytes),
            10 => put_member::<StructOf<IntegerDraft>>(alloc, held, 10, kind, bytes),
            11 => put_member::<StructOf<EmptyDraft>>(alloc, held, 11, kind, bytes),
            12 => put_member::<StructOf<EmptyDraft>>(alloc, held, 12, kind, bytes),
            13 => put_member::<StructOf<EmptyDraft>>(alloc, held, 13, kind, bytes),
            14 => put_member::<StructOf<EmptyDraft>>(alloc, held, 14, kind, bytes),
            15 => put_member::<StructOf<EmptyDraft>>(alloc, held, 15, kind, bytes),
            16 => put_member::<StructOf<VariantDraft>>(alloc, held, 16, kind, bytes),
            _ => Ok(pass(bytes, kind)?),
        }
    }

    #[tactic(auto, unfolding(crate::specs::LogicalTypes::logical_finish))]
    fn finished(held: UnionSlots) -> Option<Logical> {
        if held.broken {
            None
        } else {
            Some(Logical {
                member: i16::from(held.member),
                first: held.inside.first,
                second: held.inside.second,
            })
        }
    }
}
