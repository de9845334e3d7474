//! The structs of a column chunk (parquet.thrift, ColumnChunk, ColumnMetaData, Statistics), read.
//!
//! The fields that parquet.thrift has beside these are passed over, and never written.

ghost use Rattle.std.specs.Prelude.{◌≡◌, Option};
ghost use Rattle.vs_bytes.specs.Outcome.{Makes};
ghost use Rattle.thrift_structs.specs.Entries.{optional_counted, optional_count};
ghost use Rattle.thrift_structs.specs.ColumnChunks.{stats_shapes, stats_start, stats_put, stats_finish, column_shapes, column_start, column_put, column_finish, chunk_shapes, chunk_start, chunk_put, chunk_finish};

use crate::drafts::Draft;
use crate::entries::{StructOf, put};
use crate::lists::ListOf;
use std::alloc::Global;
use thrift_compact::{Binary, Int32, Int64, Slot, pass};
use vs_bytes::{Bytes, Refusal, Sequence};

/// The statistics of a column chunk.
#[derive(Debug, Drop)]
pub struct Stats {
    /// How many entries have no value.
    pub nulls: Option<u64>,
    /// A lower bound of the values, as one plain value without length.
    pub least: Option<Bytes>,
    /// An upper bound of the values, as one plain value without length.
    pub greatest: Option<Bytes>,
}

/// The metadata of a column chunk.
#[derive(Drop)]
pub struct ColumnMeta {
    /// The leaf column's physical type.
    pub kind: i32,
    /// The encodings of its pages.
    pub encodings: Sequence<i32>,
    /// The schema path to the leaf.
    pub path_in_schema: Sequence<Bytes>,
    /// The compression codec.
    pub codec: i32,
    /// How many values, nulls among them.
    pub num_values: i64,
    /// The bytes of its pages before compression.
    pub total_uncompressed_size: i64,
    /// The bytes of its pages.
    pub total_compressed_size: i64,
    /// The place of its first data page in the file.
    pub data_page_offset: i64,
    /// The place of its dictionary page.
    pub dictionary_page_offset: Option<i64>,
    /// Its statistics.
    pub statistics: Option<Stats>,
}

/// A column chunk in a row group.
#[derive(Drop)]
pub struct ChunkMeta {
    /// The file of its pages, where that is another one.
    pub file_path: Option<Bytes>,
    /// The place of its metadata in the file.
    pub file_offset: i64,
    /// Its metadata.
    pub meta_data: Option<ColumnMeta>,
}

fn optional_counted(slot: Slot<i64>) -> Option<Option<i64>>
    ensures { result ≡ optional_counted slot }
{
    match slot {
        Slot::Missing => Some(None),
        Slot::Found(value) if 0 <= value => Some(Some(value)),
        _ => None,
    }
}

fn optional_count(slot: Slot<i64>) -> Option<Option<u64>>
    ensures { result ≡ optional_count slot }
{
    match slot {
        Slot::Missing => Some(None),
        Slot::Found(value) if 0 <= value => Some(Some(value.unsigned_abs())),
        _ => None,
    }
}

/// The slots of Statistics.
#[derive(Drop)]
pub struct StatsSlots {
    null_count: Slot<i64>,
    max_value: Slot<Bytes>,
    min_value: Slot<Bytes>,
}

/// How Statistics is read, and written.
pub struct StatsDraft;

impl Draft for StatsDraft {
    type Held = StatsSlots;

    type Item = Stats;

    ghost shapes = { stats_shapes };

    ghost start = { stats_start };

    ghost put = { stats_put };

    ghost finish = { stats_finish };

    fn start() -> StatsSlots {
        StatsSlots {
            null_count: Slot::Missing,
            max_value: Slot::Missing,
            min_value: Slot::Missing,
        }
    }

    #[tactic(auto, unfolding(thrift_compact::specs::Trees::known_at, thrift_compact::specs::Trees::at_shape, crate::specs::ColumnChunks::stats_shapes, crate::specs::ColumnChunks::stats_put))]
    fn field<'a>(
        held: &mut StatsSlots,
        alloc: Global,
        id: i16,
        kind: u8,
        bytes: &'a [u8],
    ) -> Result<&'a [u8], Refusal> {
        match id {
            3 => put::<Int64>(alloc, &mut held.null_count, kind, bytes),
            5 => put::<Binary>(alloc, &mut held.max_value, kind, bytes),
            6 => put::<Binary>(alloc, &mut held.min_value, kind, bytes),
            _ => Ok(pass(bytes, kind)?),
        }
    }

    #[tactic(auto, unfolding(crate::specs::ColumnChunks::stats_finish))]
    fn finished(held: StatsSlots) -> Option<Stats> {
        let nulls = optional_count(held.null_count)?;
        let greatest = held.max_value.optional()?;
        let least = held.min_value.optional()?;
        Some(Stats {
            nulls,
            least,
            greatest,
        })
    }
}

/// The slots of ColumnMetaData.
#[derive(Drop)]
pub struct ColumnSlots {
    kind: Slot<i32>,
    encodings: Slot<Sequence<i32>>,
    path_in_schema: Slot<Sequence<Bytes>>,
    codec: Slot<i32>,
    num_values: Slot<i64>,
    total_uncompressed_size: Slot<i64>,
    total_compressed_size: Slot<i64>,
    data_page_offset: Slot<i64>,
    dictionary_page_offset: Slot<i64>,
    statistics: Slot<Stats>,
}

/// How ColumnMetaData is read, and written.
pub struct ColumnDraft;

impl Draft for ColumnDraft {
    type Held = ColumnSlots;

    type Item = ColumnMeta;

    ghost shapes = { column_shapes };

    ghost start = { column_start };

    ghost put = { column_put };

    ghost finish = { column_finish };

    fn start() -> ColumnSlots {
        ColumnSlots {
            kind: Slot::Missing,
            encodings: Slot::Missing,
            path_in_schema: Slot::Missing,
            codec: Slot::Missing,
            num_values: Slot::Missing,
            total_uncompressed_size: Slot::Missing,
            total_compressed_size: Slot::Missing,
            data_page_offset: Slot::Missing,
            dictionary_page_offset: Slot::Missing,
            statistics: Slot::Missing,
        }
    }

    #[tactic(auto, unfolding(thrift_compact::specs::Trees::known_at, thrift_compact::specs::Trees::at_shape, crate::specs::ColumnChunks::column_shapes, crate::specs::ColumnChunks::column_put))]
    fn field<'a>(
        held: &mut ColumnSlots,
        alloc: Global,
        id: i16,
        kind: u8,
        bytes: &'a [u8],
    ) -> Result<&'a [u8], Refusal> {
        match id {
            1 => put::<Int32>(alloc, &mut held.kind, kind, bytes),
            2 => put::<ListOf<Int32>>(alloc, &mut held.encodings, kind, bytes),
            3 => put::<ListOf<Binary>>(alloc, &mut held.path_in_schema, kind, bytes),
            4 => put::<Int32>(alloc, &mut held.codec, kind, bytes),
            5 => put::<Int64>(alloc, &mut held.num_values, kind, bytes),
            6 => put::<Int64>(alloc, &mut held.total_uncompressed_size, kind, bytes),
            7 => put::<Int64>(alloc, &mut held.total_compressed_size, kind, bytes),
            9 => put::<Int64>(alloc, &mut held.data_page_offset, kind, bytes),
            11 => put::<Int64>(alloc, &mut held.dictionary_page_offset, kind, bytes),
            12 => put::<StructOf<StatsDraft>>(alloc, &mut held.statistics, kind, bytes),
            _ => Ok(pass(bytes, kind)?),
        }
    }

    #[tactic(auto, unfolding(crate::specs::ColumnChunks::column_finish))]
    fn finished(held: ColumnSlots) -> Option<ColumnMeta> {
        Some(ColumnMeta {
            kind: held.kind.required()?,
            encodings: held.encodings.required()?,
            path_in_schema: held.path_in_schema.required()?,
            codec: held.codec.required()?,
            num_values: held.num_values.counted()?,
            total_uncompressed_size: held.total_uncompressed_size.counted()?,
            total_compressed_size: held.total_compressed_size.counted()?,
            data_page_offset: held.data_page_offset.counted()?,
            dictionary_page_offset: optional_counted(held.dictionary_page_offset)?,
            statistics: held.statistics.optional()?,
        })
    }
}

/// The slots of ColumnChunk.
#[derive(Drop)]
pub struct ChunkSlots {
    file_path: Slot<Bytes>,
    file_offset: Slot<i64>,
    meta_data: Slot<ColumnMeta>,
}

/// How ColumnChunk is read, and written.
pub struct ChunkDraft;

impl Draft for ChunkDraft {
    type Held = ChunkSlots;

    type Item = ChunkMeta;

    ghost shapes = { chunk_shapes };

    ghost start = { chunk_start };

    ghost put = { chunk_put };

    ghost finish = { chunk_finish };

    fn start() -> ChunkSlots {
        ChunkSlots {
            file_path: Slot::Missing,
            file_offset: Slot::Missing,
            meta_data: Slot::Missing,
        }
    }

    #[tactic(auto, unfolding(thrift_compact::specs::Trees::known_at, thrift_compact::specs::Trees::at_shape, crate::specs::ColumnChunks::chunk_shapes, crate::specs::ColumnChunks::chunk_put))]
    fn field<'a>(
        held: &mut ChunkSlots,
        alloc: Global,
        id: i16,
        kind: u8,
        bytes: &'a [u8],
    ) -> Result<&'a [u8], Refusal> {
        match id {
            1 => put::<Binary>(alloc, &mut held.file_path, kind, bytes),
            2 => put::<Int64>(alloc, &mut held.file_offset, kind, bytes),
            3 => put::<StructOf<ColumnDraft>>(alloc, &mut held.meta_data, kind, bytes),
            _ => Ok(pass(bytes, kind)?),
        }
    }

    #[tactic(auto, unfolding(crate::specs::ColumnChunks::chunk_finish))]
    fn finished(held: ChunkSlots) -> Option<ChunkMeta> {
        Some(ChunkMeta {
            file_path: held.file_path.optional()?,
            file_offset: held.file_offset.counted()?,
            meta_data: held.meta_data.optional()?,
        })
    }
}
