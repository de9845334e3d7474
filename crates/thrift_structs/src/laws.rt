//! What is written reads back. Each law is a contract of an empty function.

ghost use Rattle.std.specs.Prelude.{◌≡◌, ◌++◌, ℕ, List, Some, Ok};
ghost use Rattle.thrift_compact.specs.Numbers.{mapped};
ghost use Rattle.thrift_compact.specs.Trees.{struct_at, known_at};
ghost use Rattle.thrift_compact.specs.Coded.{fields_coded};
ghost use Rattle.thrift_structs.specs.ColumnChunks.{stats_shapes, stats_of, column_shapes, column_of, chunk_shapes, chunk_of};
ghost use Rattle.thrift_structs.specs.ChunkWriting.{stats_fields, column_fields, chunk_fields, StatsReadBack, ColumnReadsBack, ChunkReadsBack};
ghost use Rattle.thrift_structs.specs.declared.column_chunks.Stats.{Stats};
ghost use Rattle.thrift_structs.specs.declared.column_chunks.ColumnMeta.{ColumnMeta};
ghost use Rattle.thrift_structs.specs.declared.column_chunks.ChunkMeta.{ChunkMeta};

/// The bytes that `write_struct` writes for the structs of a column chunk mean these structs for `read_struct`,
/// whatever bytes follow them.
pub fn column_chunks_read_back()
    ensures statistics { (s : Stats) (rest : List ℕ) → StatsReadBack s → mapped stats_of (struct_at (known_at stats_shapes) (fields_coded 0 (stats_fields s) ++ rest)) ≡ Ok (Some s, rest) }
    ensures columns { (m : ColumnMeta) (rest : List ℕ) → ColumnReadsBack m → mapped column_of (struct_at (known_at column_shapes) (fields_coded 0 (column_fields m) ++ rest)) ≡ Ok (Some m, rest) }
    ensures chunks { (m : ChunkMeta) (rest : List ℕ) → ChunkReadsBack m → mapped chunk_of (struct_at (known_at chunk_shapes) (fields_coded 0 (chunk_fields m) ++ rest)) ≡ Ok (Some m, rest) }
{}
