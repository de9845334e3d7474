//! The chunks of a row group.

ghost use Rattle.std.specs.Prelude.{◌≡◌, ℕ, ◌+◌, ◌^◌, ◌<◌, ◌≤◌, [], ◌∷◌, ◌++◌, length, map, slice_index_or, IfOk, OnOk};
ghost use Rattle.std.specs.List.{All, AllByRecursion};
ghost use Rattle.pages.specs.Entries.{IsEntry};
ghost use Rattle.pages.specs.Written.{weights};
ghost use Rattle.chunks.specs.PageCuts.{chunk_written};
ghost use Rattle.shred_schema.specs.Lawful.{IsWellFormed};
ghost use Rattle.shred_schema.specs.Leaves.{column_leaves};
ghost use Rattle.shred_schema.specs.Views.{group_of, row_rec_of};
ghost use Rattle.vs_bytes.specs.declared.leaf_columns.Leaf.{Leaf};
ghost use Rattle.striping_laws.specs.Rows.{min_page_bytes};
ghost use Rattle.group_writing.specs.GroupRows.{IsGroup};
ghost use Rattle.group_writing.specs.FitsChunk.{FitsChunk};
ghost use Rattle.group_writing.specs.GroupChunks.{chunk_meta, chunks_size, chunks_from, metas_from, chunks_written, chunk_metas};

use crate::chunk_metas::{SchemaPath, chunk_meta};
use chunks::write_chunk;
use level_striping::stripe;
use shred_schema::{Column, LeafList, RowList};
use std::alloc::Global;
use std::mem;
use thrift_structs::ChunkMeta;
use vs_bytes::{Bytes, EntryList, Leaf, NoMemory, Sequence};

/// A row group that is written: what is kept of it for the file, and for the footer.
#[derive(Drop)]
pub struct WrittenGroup {
    /// The bytes of its chunks, in the order of the leaves.
    pub chunks: Sequence<Bytes>,
    /// The structs of its chunks.
    pub metas: Sequence<ChunkMeta>,
    /// How many bytes the chunks have together.
    pub size: u64,
}

// Takes the entries of a leaf out of those of all leaves.
fn taken(alloc: Global, leaves: &mut [EntryList], j: usize) -> EntryList
    requires { j < length leaves.old }
    ensures entries { result ≡ slice_index_or leaves.old j [] }
    ensures others { (k : ℕ) → j < k → slice_index_or leaves.new k [] ≡ slice_index_or leaves.old k [] }
{
    mem::replace(&mut leaves[j], Sequence::new(alloc))
}

// Adds the chunk of a leaf column to a group that begins at `place`.
fn put_chunk(
    alloc: Global,
    group: &mut WrittenGroup,
    leaf: &Leaf,
    path: &SchemaPath,
    page_bytes: u32,
    place: u64,
    entries: &EntryList,
) -> Result<(), NoMemory>
    requires fit { FitsChunk leaf.now page_bytes entries.now }
    requires place { place < 2 ^ 62 }
    requires size { group.old.size ≤ 2 ^ 40 }
    ensures chunks { OnOk result (group.new.chunks ≡ group.old.chunks ++ chunk_written leaf.now page_bytes entries.now ∷ []) }
    ensures metas { OnOk result (group.new.metas ≡ group.old.metas ++ chunk_meta leaf.now path.now (place + group.old.size) (length (chunk_written leaf.now page_bytes entries.now)) entries.now ∷ []) }
    ensures size { OnOk result (group.new.size ≡ group.old.size + length (chunk_written leaf.now page_bytes entries.now)) }
{
    let bytes = write_chunk(alloc, leaf, entries.as_slice(), page_bytes)?;
    let size = bytes.as_slice().len() as u64;
    let begin = place + group.size;
    let meta = chunk_meta(alloc, leaf, path, begin, size, entries.as_slice())?;
    group.chunks.push(bytes)?;
    group.metas.push(meta)?;
    group.size += size;
    Ok(())
}

// The chunks of leaf columns in a group that begins at `place`. The entries of a leaf are let go once its chunk is
// written.
fn put_chunks(
    alloc: Global,
    leaves: &[Leaf],
    paths: &[SchemaPath],
    page_bytes: u32,
    place: u64,
    entries: &mut [EntryList],
) -> Result<WrittenGroup, NoMemory>
    requires paths { length paths.now ≡ length leaves.now }
    requires entries { length leaves.now ≤ length entries.old }
    requires few { length leaves.now ≤ 1024 }
    requires fit { (j : ℕ) (other : Leaf) → j < length leaves.now → FitsChunk (slice_index_or leaves.now j other) page_bytes (slice_index_or entries.old j []) }
    requires place { place < 2 ^ 62 }
    ensures chunks { IfOk result (λ g. g.chunks ≡ chunks_from page_bytes (λ j. slice_index_or entries.old j []) 0 leaves.now) }
    ensures metas { IfOk result (λ g. g.metas ≡ metas_from page_bytes (λ j. slice_index_or entries.old j []) 0 place leaves.now paths.now) }
    ensures size { IfOk result (λ g. g.size ≡ chunks_size g.chunks) }
    ensures small { IfOk result (λ g. g.size ≤ 2 ^ 40) }
{
    let mut group = WrittenGroup {
        chunks: Sequence::new(alloc),
        metas: Sequence::new(alloc),
        size: 0,
    };
    for j in 0..leaves.len() {
        let own = taken(alloc, entries, j);
        put_chunk(
            alloc, &mut group, &leaves[j], &paths[j], page_bytes, place, &own,
        )?;
    }
    Ok(group)
}

/// The row group of rows of a column, which begins at `place`: a chunk for each leaf column, in the order of `leaves`,
/// and the structs of these chunks, with the schema path to each leaf.
///
/// Only memory can fail.
pub fn write_group(
    alloc: Global,
    column: &Column,
    leaves: &LeafList,
    paths: &Sequence<SchemaPath>,
    page_bytes: u32,
    place: u64,
    rows: &RowList,
) -> Result<WrittenGroup, NoMemory>
    requires column { IsWellFormed (group_of column.now.node) }
    requires leaves { leaves.now ≡ column_leaves column.now.optional (group_of column.now.node) }
    requires paths { length paths.now ≡ length leaves.now }
    requires rows { IsGroup column.now.optional (group_of column.now.node) (map row_rec_of rows.now) }
    requires pages { min_page_bytes ≤ page_bytes }
    requires place { place < 2 ^ 62 }
    ensures chunks { IfOk result (λ g. g.chunks ≡ chunks_written page_bytes column.now.optional (group_of column.now.node) (map row_rec_of rows.now)) }
    ensures metas { IfOk result (λ g. g.metas ≡ chunk_metas page_bytes column.now.optional (group_of column.now.node) paths.now place (map row_rec_of rows.now)) }
    ensures size { IfOk result (λ g. g.size ≡ chunks_size g.chunks) }
    ensures small { IfOk result (λ g. g.size ≤ 2 ^ 40) }
{
    let mut entries = stripe(alloc, column, rows)?.into_vec();
    put_chunks(
        alloc,
        leaves.as_slice(),
        paths.as_slice(),
        page_bytes,
        place,
        &mut entries,
    )
}
