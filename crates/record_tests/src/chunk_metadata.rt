//! The metadata of a column chunk, written, and the range of its bytes.

ghost use Rattle.std.specs.Prelude.{IfOk};
ghost use Rattle.thrift_structs.specs.ChunkWriting.{ChunkFits};

use std::alloc::Global;
use std::process::Abort;
use std::test::Fail;
use test_rows::bytes_of;
use thrift_structs::{ChunkDraft, ChunkMeta, ColumnMeta, Stats, chunk_range, write_struct};
use vs_bytes::{Bytes, Leaf, NoMemory, Phys, Prim, Rule, Sequence};

// A chunk of one integer of 64 bits, which is 9, at place 4.
fn chunk(alloc: Global) -> Result<ChunkMeta, NoMemory>
    ensures { IfOk result (λ made. ChunkFits made) }
{
    let mut encodings = Sequence::new(alloc);
    encodings.push(0)?;
    encodings.push(3)?;
    let mut path = Sequence::new(alloc);
    path.push(Bytes::from_slice(alloc, b"doc")?)?;
    Ok(ChunkMeta {
        file_path: None,
        file_offset: 0,
        meta_data: Some(ColumnMeta {
            kind: 2,
            encodings,
            path_in_schema: path,
            codec: 0,
            num_values: 1,
            total_uncompressed_size: 32,
            total_compressed_size: 32,
            data_page_offset: 4,
            dictionary_page_offset: None,
            statistics: Some(Stats {
                nulls: Some(0),
                least: Some(Bytes::from_slice(alloc, &[9, 0, 0, 0, 0, 0, 0, 0])?),
                greatest: Some(Bytes::from_slice(alloc, &[9, 0, 0, 0, 0, 0, 0, 0])?),
            }),
        }),
    })
}

const LEAF: Leaf = Leaf {
    rep: 0,
    def: 3,
    phys: Phys::Int64,
    prim: Prim::Int64,
};

#[test]
fn a_chunk_is_written(rt: HostRuntime) -> Result<(), Fail> {
    let mut bytes = Vec::new(rt.alloc());
    write_struct::<ChunkDraft>(&mut bytes, &chunk(rt.alloc())?)?;
    let head = "2600 1c 1504 19250006 191803646f63 1500 1602 1640 1640 2608";
    let statistics = "3c 3600 28080900000000000000 18080900000000000000 00";
    let mut wanted = bytes_of(rt.alloc(), head)?;
    wanted.extend_from_slice(bytes_of(rt.alloc(), statistics)?.as_slice())?;
    wanted.extend_from_slice(&[0, 0])?;
    assert_eq!(&rt; bytes.as_slice(), wanted.as_slice());
    Ok(())
}

#[test]
fn a_chunk_has_its_range(rt: HostRuntime) -> Result<(), Fail> {
    let chunk = chunk(rt.alloc())?;
    assert!(&rt; matches!(chunk_range(&chunk, &LEAF, 100), Ok((4, 32))));
    assert!(&rt; matches!(chunk_range(&chunk, &LEAF, 35), Err(Rule::ChunkRange)));
    Ok(())
}
