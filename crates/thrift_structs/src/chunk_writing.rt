//! The structs of a column chunk, written.

ghost use Rattle.std.specs.Prelude.{◌≡◌, ◌++◌};
ghost use Rattle.thrift_compact.specs.Trees.{struct_value};
ghost use Rattle.thrift_structs.specs.ChunkWriting.{count_value, IsI64Count, stats_fields, StatsFits, column_fields, ColumnFits, chunk_fields, ChunkFits};

use crate::codes::StructCode;
use crate::column_chunks::{ChunkDraft, ChunkMeta, ColumnDraft, ColumnMeta, Stats, StatsDraft};
use crate::entries::StructOf;
use crate::lists::ListOf;
use thrift_compact::{Binary, Code, Int32, Int64, append_field, append_maybe, append_stop};
use vs_bytes::NoMemory;

// A count as an i64.
struct Count;

impl Code for Count {
    type Of = u64;

    ghost tree = { count_value };

    ghost fits = { IsI64Count };

    fn kind(_value: &u64) -> u8 {
        6
    }

    fn write(into: &mut Vec<u8>, value: &u64) -> Result<(), NoMemory> {
        Int64::write(into, &(*value as i64))
    }
}

impl StructCode for StatsDraft {
    type Of = Stats;

    ghost fields = { stats_fields };

    ghost fits = { StatsFits };

    #[tactic(auto, using(vs_bytes::proofs::Growing::grows_on, thrift_compact::proofs::Appended::some_always), unfolding(crate::specs::ChunkWriting::stats_fields))]
    fn append_fields(into: &mut Vec<u8>, value: &Stats) -> Result<(), NoMemory> {
        let last = append_maybe::<Count>(into, 0, 3, &value.nulls)?;
        let last = append_maybe::<Binary>(into, last, 5, &value.greatest)?;
        let last = append_maybe::<Binary>(into, last, 6, &value.least)?;
        append_stop(into, last)?;
        Ok(())
    }
}

impl StructCode for ColumnDraft {
    type Of = ColumnMeta;

    ghost fields = { column_fields };

    ghost fits = { ColumnFits };

    #[tactic(auto, using(thrift_compact::proofs::Appended::grows_four, vs_bytes::proofs::Growing::grows_on, thrift_compact::proofs::Appended::some_always, crate::proofs::Listed::plain_fit), unfolding(crate::specs::ChunkWriting::column_fields))]
    fn append_fields(into: &mut Vec<u8>, value: &ColumnMeta) -> Result<(), NoMemory> {
        append_field::<Int32>(into, 0, 1, &value.kind)?;
        append_field::<ListOf<Int32>>(into, 1, 2, &value.encodings)?;
        append_field::<ListOf<Binary>>(into, 2, 3, &value.path_in_schema)?;
        append_field::<Int32>(into, 3, 4, &value.codec)?;
        append_field::<Int64>(into, 4, 5, &value.num_values)?;
        append_field::<Int64>(into, 5, 6, &value.total_uncompressed_size)?;
        append_field::<Int64>(into, 6, 7, &value.total_compressed_size)?;
        append_field::<Int64>(into, 7, 9, &value.data_page_offset)?;
        let last = append_maybe::<Int64>(into, 9, 11, &value.dictionary_page_offset)?;
        let last = append_maybe::<StructOf<StatsDraft>>(into, last, 12, &value.statistics)?;
        append_stop(into, last)?;
        Ok(())
    }
}

impl StructCode for ChunkDraft {
    type Of = ChunkMeta;

    ghost fields = { chunk_fields };

    ghost fits = { ChunkFits };

    #[tactic(auto, using(vs_bytes::proofs::Growing::grows_on, thrift_compact::proofs::Appended::some_always), unfolding(crate::specs::ChunkWriting::chunk_fields))]
    fn append_fields(into: &mut Vec<u8>, value: &ChunkMeta) -> Result<(), NoMemory> {
        let last = append_maybe::<Binary>(into, 0, 1, &value.file_path)?;
        append_field::<Int64>(into, last, 2, &value.file_offset)?;
        let last = append_maybe::<StructOf<ColumnDraft>>(into, 2, 3, &value.meta_data)?;
        append_stop(into, last)?;
        Ok(())
    }
}
