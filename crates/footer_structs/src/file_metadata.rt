//! The metadata of a file (parquet.thrift, FileMetaData), read.
//!
//! The fields that parquet.thrift has beside these are passed over, and never written.

ghost use Rattle.std.specs.Prelude.{◌≡◌, ℤ, Option};
ghost use Rattle.vs_bytes.specs.Outcome.{Makes};
ghost use Rattle.thrift_compact.specs.Numbers.{mapped};
ghost use Rattle.thrift_compact.specs.Trees.{Value};
ghost use Rattle.footer_structs.specs.Footers.{file_shapes, file_start, file_put, file_finish};

use crate::column_orders::OrderDraft;
use crate::row_groups::{GroupDraft, GroupMeta};
use schema_elements::{ElementDraft, ElementList};
use std::alloc::Global;
use thrift_compact::{Binary, Int32, Int64, Slot, pass};
use thrift_structs::{Draft, ListOf, StructOf, put};
use vs_bytes::{Bytes, Refusal, Sequence};

/// Row groups in the order of the file.
pub type GroupList = Sequence<GroupMeta>;

/// The metadata of a file.
#[derive(Drop)]
pub struct FileMeta {
    /// The version of the format.
    pub version: i32,
    /// The schema: one tree, each group directly before its children.
    pub schema: ElementList,
    /// How many rows the file has.
    pub num_rows: i64,
    /// Its row groups.
    pub row_groups: GroupList,
    /// What wrote the file.
    pub created_by: Option<Bytes>,
    /// The order of each leaf's values: 1 for TYPE_ORDER, 0 for another.
    pub column_orders: Option<Sequence<i32>>,
}

/// The slots of FileMetaData.
#[derive(Drop)]
pub struct FileSlots {
    version: Slot<i32>,
    schema: Slot<ElementList>,
    num_rows: Slot<i64>,
    row_groups: Slot<GroupList>,
    created_by: Slot<Bytes>,
    column_orders: Slot<Sequence<i32>>,
}

/// How FileMetaData is read, and written.
pub struct FileDraft;

impl Draft for FileDraft {
    type Held = FileSlots;

    type Item = FileMeta;

    ghost shapes = { file_shapes };

    ghost start = { file_start };

    ghost put = { file_put };

    ghost finish = { file_finish };

    fn start() -> FileSlots {
        FileSlots {
            version: Slot::Missing,
            schema: Slot::Missing,
            num_rows: Slot::Missing,
            row_groups: Slot::Missing,
            created_by: Slot::Missing,
            column_orders: Slot::Missing,
        }
    }

    #[tactic(auto, unfolding(thrift_compact::specs::Trees::known_at, thrift_compact::specs::Trees::at_shape, crate::specs::Footers::file_shapes, crate::specs::Footers::file_put))]
    fn field<'a>(
        held: &mut FileSlots,
        alloc: Global,
        id: i16,
        kind: u8,
        bytes: &'a [u8],
    ) -> Result<&'a [u8], Refusal> {
        match id {
            1 => put::<Int32>(alloc, &mut held.version, kind, bytes),
            2 => put::<ListOf<StructOf<ElementDraft>>>(alloc, &mut held.schema, kind, bytes),
            3 => put::<Int64>(alloc, &mut held.num_rows, kind, bytes),
            4 => put::<ListOf<StructOf<GroupDraft>>>(alloc, &mut held.row_groups, kind, bytes),
            6 => put::<Binary>(alloc, &mut held.created_by, kind, bytes),
            7 => put::<ListOf<StructOf<OrderDraft>>>(alloc, &mut held.column_orders, kind, bytes),
            _ => Ok(pass(bytes, kind)?),
        }
    }

    #[tactic(auto, unfolding(crate::specs::Footers::file_finish))]
    fn finished(held: FileSlots) -> Option<FileMeta> {
        Some(FileMeta {
            version: held.version.required()?,
            schema: held.schema.required()?,
            num_rows: held.num_rows.counted()?,
            row_groups: held.row_groups.required()?,
            created_by: held.created_by.optional()?,
            column_orders: held.column_orders.optional()?,
        })
    }
}
