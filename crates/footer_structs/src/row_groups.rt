//! Row groups (parquet.thrift, RowGroup), read.
//!
//! The fields that parquet.thrift has beside these are passed over, and never written.

ghost use Rattle.std.specs.Prelude.{◌≡◌, ℤ, Option};
ghost use Rattle.vs_bytes.specs.Outcome.{Makes};
ghost use Rattle.thrift_compact.specs.Numbers.{mapped};
ghost use Rattle.thrift_compact.specs.Trees.{Value};
ghost use Rattle.footer_structs.specs.Footers.{group_shapes, group_start, group_put, group_finish};

use std::alloc::Global;
use thrift_compact::{Int64, Slot, pass};
use thrift_structs::{ChunkDraft, ChunkMeta, Draft, ListOf, StructOf, put};
use vs_bytes::{Refusal, Sequence};

/// The column chunks of a row group, one for each leaf of the schema.
pub type ChunkList = Sequence<ChunkMeta>;

/// A row group.
#[derive(Drop)]
pub struct GroupMeta {
    /// Its column chunks, in the order of the schema's leaves.
    pub columns: ChunkList,
    /// The bytes of its column chunks before compression.
    pub total_byte_size: i64,
    /// How many rows it has.
    pub num_rows: i64,
}

/// The slots of RowGroup.
#[derive(Drop)]
pub struct GroupSlots {
    columns: Slot<ChunkList>,
    total_byte_size: Slot<i64>,
    num_rows: Slot<i64>,
}

/// How RowGroup is read, and written.
pub struct GroupDraft;

impl Draft for GroupDraft {
    type Held = GroupSlots;

    type Item = GroupMeta;

    ghost shapes = { group_shapes };

    ghost start = { group_start };

    ghost put = { group_put };

    ghost finish = { group_finish };

    fn start() -> GroupSlots {
        GroupSlots {
            columns: Slot::Missing,
            total_byte_size: Slot::Missing,
            num_rows: Slot::Missing,
        }
    }

    #[tactic(auto, unfolding(thrift_compact::specs::Trees::known_at, thrift_compact::specs::Trees::at_shape, crate::specs::Footers::group_shapes, crate::specs::Footers::group_put))]
    fn field<'a>(
        held: &mut GroupSlots,
        alloc: Global,
        id: i16,
        kind: u8,
        bytes: &'a [u8],
    ) -> Result<&'a [u8], Refusal> {
        match id {
            1 => put::<ListOf<StructOf<ChunkDraft>>>(alloc, &mut held.columns, kind, bytes),
            2 => put::<Int64>(alloc, &mut held.total_byte_size, kind, bytes),
            3 => put::<Int64>(alloc, &mut held.num_rows, kind, bytes),
            _ => Ok(pass(bytes, kind)?),
        }
    }

    #[tactic(auto, unfolding(crate::specs::Footers::group_finish))]
    fn finished(held: GroupSlots) -> Option<GroupMeta> {
        Some(GroupMeta {
            columns: held.columns.required()?,
            total_byte_size: held.total_byte_size.counted()?,
            num_rows: held.num_rows.counted()?,
        })
    }
}
