//! The struct of a chunk that is written.

ghost use Rattle.std.specs.Prelude.{◌≡◌, ◌^◌, ◌<◌, length, [], ◌∷◌, pos, IfOk};
ghost use Rattle.group_writing.specs.GroupChunks.{type_number, encodings_written, column_meta, chunk_meta};

use group_stats::build;
use std::alloc::Global;
use thrift_structs::{ChunkMeta, ColumnMeta};
use vs_bytes::{Bytes, Entry, Leaf, NoMemory, Phys, Sequence};

// Encodings of parquet.thrift.
const PLAIN: i32 = 0;

const RLE: i32 = 3;

// The codec UNCOMPRESSED.
const UNCOMPRESSED: i32 = 0;

/// A schema path: the names from the column down to a leaf.
pub type SchemaPath = Sequence<Bytes>;

// A physical type in parquet.thrift's Type.
fn type_number(phys: Phys) -> i32
    ensures { result ≡ type_number phys }
{
    match phys {
        Phys::Boolean => 0,
        Phys::Int32 => 1,
        Phys::Int64 => 2,
        Phys::Float => 4,
        Phys::Double => 5,
        Phys::ByteArray => 6,
        Phys::Fixed(_) => 7,
        Phys::Other => 3,
    }
}

fn encodings(alloc: Global) -> Result<Sequence<i32>, NoMemory>
    ensures { IfOk result (λ encodings. encodings ≡ encodings_written) }
{
    let mut encodings = Sequence::new(alloc);
    encodings.push(PLAIN)?;
    encodings.push(RLE)?;
    Ok(encodings)
}

fn copied_path(alloc: Global, path: &SchemaPath) -> Result<SchemaPath, NoMemory>
    ensures { IfOk result (λ copy. copy ≡ path.now) }
{
    let names = path.as_slice();
    let mut copy = Sequence::new(alloc);
    for name in names {
        copy.push(Bytes::from_slice(alloc, name.as_slice())?)?;
    }
    Ok(copy)
}

// Of a chunk of `size` bytes from `place` on.
fn column_meta(
    alloc: Global,
    leaf: &Leaf,
    path: &SchemaPath,
    place: u64,
    size: u64,
    entries: &[Entry],
) -> Result<ColumnMeta, NoMemory>
    requires place { place < 2 ^ 63 }
    requires size { size < 2 ^ 63 }
    requires entries { length entries.now < 2 ^ 63 }
    ensures { IfOk result (λ meta. meta ≡ column_meta leaf.now path.now place size entries.now) }
{
    Ok(ColumnMeta {
        kind: type_number(leaf.phys),
        encodings: encodings(alloc)?,
        path_in_schema: copied_path(alloc, path)?,
        codec: UNCOMPRESSED,
        num_values: entries.len() as i64,
        total_uncompressed_size: size as i64,
        total_compressed_size: size as i64,
        data_page_offset: place as i64,
        dictionary_page_offset: None,
        statistics: Some(build(alloc, leaf, entries)?),
    })
}

/// The struct of a leaf column's chunk, which has these entries in `size` bytes from `place` on.
pub(crate) fn chunk_meta(
    alloc: Global,
    leaf: &Leaf,
    path: &SchemaPath,
    place: u64,
    size: u64,
    entries: &[Entry],
) -> Result<ChunkMeta, NoMemory>
    requires place { place < 2 ^ 63 }
    requires size { size < 2 ^ 63 }
    requires entries { length entries.now < 2 ^ 63 }
    ensures { IfOk result (λ meta. meta ≡ chunk_meta leaf.now path.now place size entries.now) }
{
    Ok(ChunkMeta {
        file_path: None,
        file_offset: 0,
        meta_data: Some(column_meta(alloc, leaf, path, place, size, entries)?),
    })
}
