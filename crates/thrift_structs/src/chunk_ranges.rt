//! Where the bytes of a column chunk stand in its file.
//!
//! Nothing is read here: a chunk that is refused costs no byte of the file.

ghost use Rattle.std.specs.Prelude.{◌≡◌, IfOk};
ghost use Rattle.vs_bytes.specs.Outcome.{Gives};
ghost use Rattle.thrift_structs.specs.ChunkRanges.{is_type, count_of, begin_of, size_of, is_inside, IsRange, pages_range, column_range, chunk_range};

use crate::column_chunks::{ChunkMeta, ColumnMeta};
use vs_bytes::{Leaf, Phys, Prim, Rule};

// The physical types (parquet.thrift, Type).
const BOOLEAN: i32 = 0;

const INT32: i32 = 1;

const INT64: i32 = 2;

const INT96: i32 = 3;

const FLOAT: i32 = 4;

const DOUBLE: i32 = 5;

const BYTE_ARRAY: i32 = 6;

const FIXED_LEN_BYTE_ARRAY: i32 = 7;

// The codec of pages that aren't compressed (parquet.thrift, CompressionCodec).
const UNCOMPRESSED: i32 = 0;

// How many bytes a chunk may have.
const MAX_SIZE: u64 = 1_073_741_824;

// How many bytes the magic number at a file's front has.
const MAGIC_BYTES: u64 = 4;

#[tactic(auto, unfolding(crate::specs::ChunkRanges::is_type))]
fn is_type(phys: Phys, number: i32) -> bool
    ensures { result ≡ is_type phys number }
{
    match phys {
        Phys::Boolean => number == BOOLEAN,
        Phys::Int32 => number == INT32,
        Phys::Int64 => number == INT64,
        Phys::Float => number == FLOAT,
        Phys::Double => number == DOUBLE,
        Phys::ByteArray => number == BYTE_ARRAY,
        Phys::Fixed(_) => number == FIXED_LEN_BYTE_ARRAY,
        Phys::Other => number < BOOLEAN || number == INT96 || FIXED_LEN_BYTE_ARRAY < number,
    }
}

fn count_of(number: i64) -> u64
    ensures { result ≡ count_of number }
{
    if number < 0 { 0 } else { number as u64 }
}

fn begin_of(column: &ColumnMeta) -> u64
    ensures { result ≡ begin_of column.now }
{
    let data_page = count_of(column.data_page_offset);
    match column.dictionary_page_offset {
        None => data_page,
        Some(offset) => {
            let dictionary_page = count_of(offset);
            if 0 < dictionary_page && dictionary_page < data_page {
                dictionary_page
            } else {
                data_page
            }
        }
    }
}

#[tactic(auto, unfolding(crate::specs::ChunkRanges::is_inside))]
fn is_inside(end: u64, begin: u64, size: u64) -> bool
    ensures { result ≡ is_inside end begin size }
{
    MAGIC_BYTES <= begin && begin <= end && size <= end - begin
}

#[tactic(auto, unfolding(crate::specs::ChunkRanges::pages_range, crate::specs::ChunkRanges::is_inside))]
fn pages_range(elsewhere: bool, end: u64, column: &ColumnMeta) -> Result<(u64, u64), Rule>
    ensures exact { Gives (λ range. range) result (pages_range elsewhere end column.now) }
    ensures inside { IfOk result (λ range. IsRange end range) }
{
    if column.codec != UNCOMPRESSED {
        return Err(Rule::Codec);
    }
    let size = count_of(column.total_compressed_size);
    if MAX_SIZE < size {
        return Err(Rule::ChunkTooLarge);
    }
    let begin = begin_of(column);
    if elsewhere || !is_inside(end, begin, size) {
        return Err(Rule::ChunkRange);
    }
    Ok((begin, size))
}

#[tactic(auto, unfolding(crate::specs::ChunkRanges::column_range))]
fn column_range(
    leaf: &Leaf,
    elsewhere: bool,
    end: u64,
    column: &ColumnMeta,
) -> Result<(u64, u64), Rule>
    ensures exact { Gives (λ range. range) result (column_range leaf.now elsewhere end column.now) }
    ensures inside { IfOk result (λ range. IsRange end range) }
{
    if !is_type(leaf.phys, column.kind) {
        return Err(Rule::FooterField);
    }
    match leaf.prim {
        Prim::Refused(rule) => Err(rule),
        _ => pages_range(elsewhere, end, column),
    }
}

/// The place of a column chunk's first byte in its file, and how many bytes it has. The footer begins at `end`.
///
/// The violations are tried in this order. `FooterField`: it has no metadata, or another type than the leaf column.
/// Then the rule that the leaf column's kind is refused for. `Codec`: its pages are compressed. `ChunkTooLarge`: it has
/// more than 2^30 bytes. `ChunkRange`: its pages are in another file, or not between the magic number and the footer.
#[tactic(auto, unfolding(crate::specs::ChunkRanges::chunk_range))]
pub fn chunk_range(chunk: &ChunkMeta, leaf: &Leaf, end: u64) -> Result<(u64, u64), Rule>
    ensures exact { Gives (λ range. range) result (chunk_range chunk.now leaf.now end) }
    ensures inside { IfOk result (λ range. IsRange end range) }
{
    match &chunk.meta_data {
        None => Err(Rule::FooterField),
        Some(column) => column_range(leaf, chunk.file_path.is_some(), end, column),
    }
}
