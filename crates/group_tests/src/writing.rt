//! A row group, written.

ghost use Rattle.std.specs.Prelude.{◌≡◌, length, IfOk};

use crate::given::{METADATA, VALUES, column, rows};
use group_stats::build;
use group_writing::{SchemaPath, WrittenGroup, write_group};
use shred_schema::leaves;
use std::alloc::Global;
use std::process::Abort;
use std::test::Fail;
use thrift_structs::ChunkMeta;
use vs_bytes::{Bytes, Entry, Leaf, NoMemory, Phys, Prim, Sequence};

fn path(alloc: Global, name: &[u8]) -> Result<SchemaPath, NoMemory> {
    let mut path = Sequence::new(alloc);
    path.push(Bytes::from_slice(alloc, b"doc")?)?;
    path.push(Bytes::from_slice(alloc, name)?)?;
    Ok(path)
}

fn paths(alloc: Global) -> Result<Sequence<SchemaPath>, NoMemory>
    ensures { IfOk result (λ paths. length paths ≡ 2) }
{
    let mut paths = Sequence::new(alloc);
    paths.push(path(alloc, b"metadata")?)?;
    paths.push(path(alloc, b"value")?)?;
    Ok(paths)
}

// The two rows, in a group that begins after the magic number.
#[tactic(auto, using(crate::proofs::TwoRows::rows_are_group, crate::proofs::TwoRows::well_formed))]
fn written(alloc: Global) -> Result<WrittenGroup, NoMemory> {
    let column = column();
    let leaves = leaves(alloc, &column)?;
    let paths = paths(alloc)?;
    let rows = rows(alloc)?;
    write_group(alloc, &column, &leaves, &paths, 1024, 4, &rows)
}

// Whether the struct tells of a chunk of `size` bytes from `place` on, with two entries of which one has no value.
fn is_told(chunk: &ChunkMeta, place: i64, size: i64) -> bool {
    match &chunk.meta_data {
        Some(meta) => {
            let nulls = match &meta.statistics {
                Some(stats) => stats.nulls,
                None => None,
            };
            meta.data_page_offset == place
                && meta.total_compressed_size == size
                && meta.num_values == 2
                && nulls == Some(1)
        }
        None => false,
    }
}

fn has_bytes(chunks: &Sequence<Bytes>, k: usize, bytes: &[u8]) -> bool {
    match chunks.as_slice().get(k) {
        Some(chunk) => chunk.as_slice() == bytes,
        None => false,
    }
}

fn has_struct(metas: &Sequence<ChunkMeta>, k: usize, place: i64, size: i64) -> bool {
    match metas.as_slice().get(k) {
        Some(chunk) => is_told(chunk, place, size),
        None => false,
    }
}

#[test]
fn each_leaf_has_a_chunk_behind_the_one_before_it(rt: HostRuntime) -> Result<(), Fail> {
    let group = written(rt.alloc())?;
    assert!(&rt; has_bytes(&group.chunks, 0, METADATA));
    assert!(&rt; has_bytes(&group.chunks, 1, VALUES));
    assert!(&rt; has_struct(&group.metas, 0, 4, 30));
    assert!(&rt; has_struct(&group.metas, 1, 34, 28));
    assert!(&rt; group.size == 58);
    Ok(())
}

#[test]
fn entries_without_a_value_are_counted(rt: HostRuntime) -> Result<(), Fail> {
    let leaf = Leaf {
        rep: 0,
        def: 1,
        phys: Phys::ByteArray,
        prim: Prim::Raw,
    };
    let mut entries = Vec::new(rt.alloc());
    for _entry in 0..3 {
        entries.push(Entry {
            rep: 0,
            def: 0,
            value: None,
        })?;
    }
    let stats = build(rt.alloc(), &leaf, entries.as_slice())?;
    assert!(&rt; stats.nulls == Some(3));
    Ok(())
}
