//! The order of a column's values (parquet.thrift, ColumnOrder), as 1 for TYPE_ORDER and 0 for another order.

ghost use Rattle.std.specs.Prelude.{◌≡◌, ℤ, Option};
ghost use Rattle.vs_bytes.specs.Outcome.{Makes};
ghost use Rattle.thrift_compact.specs.Numbers.{mapped};
ghost use Rattle.thrift_compact.specs.Trees.{Value};
ghost use Rattle.schema_elements.specs.Unions.{none_met};
ghost use Rattle.schema_elements.specs.LogicalTypes.{member_of};
ghost use Rattle.footer_structs.specs.Footers.{order_shapes, order_put};

use schema_elements::{EmptyDraft, UnionSlots, put_member};
use std::alloc::Global;
use thrift_compact::pass;
use thrift_structs::{Draft, StructOf};
use vs_bytes::Refusal;

/// How ColumnOrder is read, and written.
pub struct OrderDraft;

impl Draft for OrderDraft {
    type Held = UnionSlots;

    type Item = i32;

    ghost shapes = { order_shapes };

    ghost start = { none_met };

    ghost put = { order_put };

    ghost finish = { member_of };

    fn start() -> UnionSlots {
        UnionSlots::new()
    }

    #[tactic(auto, unfolding(thrift_compact::specs::Trees::known_at, thrift_compact::specs::Trees::at_shape, crate::specs::Footers::order_shapes, crate::specs::Footers::order_put))]
    fn field<'a>(
        held: &mut UnionSlots,
        alloc: Global,
        id: i16,
        kind: u8,
        bytes: &'a [u8],
    ) -> Result<&'a [u8], Refusal> {
        match id {
            1 => put_member::<StructOf<EmptyDraft>>(alloc, held, 1, kind, bytes),
            _ => Ok(pass(bytes, kind)?),
        }
    }

    #[tactic(auto, unfolding(schema_elements::specs::LogicalTypes::member_of))]
    fn finished(held: UnionSlots) -> Option<i32> {
        if held.broken {
            None
        } else {
            Some(i32::from(held.member))
        }
    }
}
