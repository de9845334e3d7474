//! The metadata of column chunks.

use std::alloc::{AllocError, Global};
use std::test::Fail;
use test_rows::{Shown, Wrong, bytes_of, check_rows, hex_text, text_or_rule};
use thrift_structs::{ChunkDraft, ChunkMeta, ColumnMeta, Stats, read_struct};
use vs_bytes::{Bytes, Refusal};

fn bytes_text(alloc: Global, bytes: &Option<Bytes>) -> Result<String, AllocError> {
    match bytes {
        Some(bytes) => hex_text(alloc, bytes.as_slice()),
        None => "none".to_string(alloc),
    }
}

fn stats_text(alloc: Global, stats: &Option<Stats>) -> Result<String, AllocError> {
    match stats {
        Some(stats) => {
            let least = bytes_text(alloc, &stats.least)?;
            let greatest = bytes_text(alloc, &stats.greatest)?;
            format!(in alloc;
                "nulls {}, {least} to {greatest}",
                stats.nulls.unwrap_or(99)
            )
        }
        None => "no statistics".to_string(alloc),
    }
}

// The encodings and the path.
fn lists_text(alloc: Global, column: &ColumnMeta) -> Result<String, AllocError> {
    let mut text = String::new(alloc);
    for encoding in column.encodings.as_slice() {
        let next = format!(in alloc; "{encoding} ")?;
        text.push_str(next.as_str())?;
    }
    for name in column.path_in_schema.as_slice() {
        let next = hex_text(alloc, name.as_slice())?;
        text.push_str(next.as_str())?;
        text.push_str(" ")?;
    }
    Ok(text)
}

fn column_text(alloc: Global, column: &ColumnMeta) -> Result<String, AllocError> {
    let lists = lists_text(alloc, column)?;
    let stats = stats_text(alloc, &column.statistics)?;
    format!(in alloc;
        "{} {lists}{} {} {} {} at {} and {}, {stats}",
        column.kind,
        column.codec,
        column.num_values,
        column.total_uncompressed_size,
        column.total_compressed_size,
        column.data_page_offset,
        column.dictionary_page_offset.unwrap_or(0)
    )
}

fn chunk_text(alloc: Global, chunk: &ChunkMeta) -> Result<String, AllocError> {
    let path = bytes_text(alloc, &chunk.file_path)?;
    let column = match &chunk.meta_data {
        Some(column) => column_text(alloc, column)?,
        None => "no metadata".to_string(alloc)?,
    };
    format!(in alloc; "file {path} {}: {column}", chunk.file_offset)
}

fn found(alloc: Global, bytes: &[u8]) -> Result<String, Refusal> {
    let (chunk, _rest) = read_struct::<ChunkDraft>(alloc, bytes)?;
    match chunk {
        Some(chunk) => Ok(chunk_text(alloc, &chunk)?),
        None => Ok("none".to_string(alloc)?),
    }
}

// A row gives the bytes of a ColumnChunk. It shows its fields, the names and bounds in hex digits.
struct Chunks;

impl Shown for Chunks {
    fn shown(alloc: Global, given: &str) -> Result<String, Wrong> {
        let bytes = bytes_of(alloc, given)?;
        text_or_rule(alloc, found(alloc, &bytes))
    }
}

// All fields that are read, and those that must be there. Of a column a key-value list (field 8) is passed over, of
// statistics the field 1.
const METADATA: &str =
    "18 01 66 16 08 1c 15 04 19 25 00 06 19 28 01 76 02 61 62 15 00 16 02 16 40 16 44 26 08 26 02 1c 36 00 28 01 0a 18 01 09 00 00 00 | file 66 4: 2 0 3 76 6162 0 1 32 34 at 4 and 1, nulls 0, 09 to 0a
26 08 1c 15 04 19 05 19 08 15 00 16 02 16 40 16 44 26 08 00 00 | file none 4: 2 0 1 32 34 at 4 and 0, no statistics
26 08 1c 15 04 19 05 19 08 15 00 16 02 16 40 16 44 19 1c 18 01 6b 00 16 08 3c 18 01 ff 00 00 00 | file none 4: 2 0 1 32 34 at 4 and 0, nulls 99, none to none
26 08 00 | file none 4: no metadata";

#[test]
fn metadata_is_read(rt: HostRuntime) -> Result<(), Fail> {
    check_rows::<Chunks>(rt.alloc(), METADATA)?;
    Ok(())
}

// A field that is missing, stands twice, has another type or is negative, also inside; a list of another type, and of
// 2^32 - 1 elements in six bytes.
const RULES: &str = "00 | none
26 08 06 04 08 00 | none
25 08 00 | none
26 07 00 | none
15 02 16 08 00 | none
26 08 15 02 00 | none
26 08 1c 00 00 | none
26 08 1c 15 04 19 05 19 08 15 00 16 02 16 40 16 44 26 08 26 01 00 00 | none
26 08 1c 15 04 19 06 19 08 15 00 16 02 16 40 16 44 26 08 00 00 | none
26 08 1c 15 04 19 05 19 08 15 00 16 02 16 40 16 44 26 08 3c 36 01 00 00 00 | none
26 08 1c 15 04 19 f5 ff ff ff ff 0f | Thrift
26 08 1c 15 04 19 f6 ff ff ff ff 0f | Thrift
26 08 1c 15 04 19 05 19 f8 ff ff ff ff 0f | Thrift
26 | Thrift
 | Thrift";

#[test]
fn metadata_that_is_none(rt: HostRuntime) -> Result<(), Fail> {
    check_rows::<Chunks>(rt.alloc(), RULES)?;
    Ok(())
}
