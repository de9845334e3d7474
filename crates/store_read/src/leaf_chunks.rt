//! The chunk of a leaf in its file, read.

ghost use Rattle.std.specs.Prelude.{◌≡◌, [], ◌∷◌, true, IfOk};
ghost use Rattle.vs_bytes.specs.Numbers.{part};
ghost use Rattle.group_reading.specs.ChunkEntries.{chunk_entries, has_rows};
ghost use Rattle.store_read.specs.Ranges.{ReadsFile};
ghost use Rattle.store_read.specs.FileGroups.{values_in, chunk_seen, chunk_plan};

use crate::fetching::{FetchError, fetch};
use crate::read_stop::ReadStop;
use chunks::ChunkEntries;
use group_reading::read_chunk;
use shelf::Shelf;
use std::alloc::Global;
use thrift_structs::{ChunkMeta, ColumnMeta, chunk_range};
use vs_bytes::{Leaf, Refused, Rule, Text};

fn values_in(column: &Option<ColumnMeta>) -> u64
    ensures { result ≡ values_in column.now }
{
    match column {
        Some(column) if 0 <= column.num_values => column.num_values.unsigned_abs(),
        _ => 0,
    }
}

// The entries of the chunk that has these bytes.
#[tactic(auto, using(crate::proofs::Reading::fails_one))]
fn read_range<S: Shelf>(
    alloc: Global,
    shelf: &mut S,
    name: &Text,
    range: (u64, u64),
    leaf: &Leaf,
    values: u64,
    rows: u64,
) -> Result<ChunkEntries, ReadStop<Rule>>
    ensures read { ReadsFile (λ entries. entries) (S.seen shelf.old) (S.seen shelf.new) name.now (record { name = name.now; at = range.0; size = range.1 } ∷ []) (λ file. chunk_entries leaf.now values rows (part file range.0 range.1)) result }
    ensures rows { IfOk result (λ entries. has_rows rows entries ≡ true) }
{
    match fetch(alloc, shelf, name, range.0, range.1) {
        Ok(bytes) => match read_chunk(alloc, leaf, bytes, values, rows) {
            Ok(entries) => Ok(entries),
            Err(Refused::Fault(rule)) => Err(ReadStop::Violated(rule)),
            Err(Refused::NoMemory) => Err(ReadStop::NoMemory),
        },
        Err(FetchError::Failed) => Err(ReadStop::Failed),
        Err(FetchError::NoMemory) => Err(ReadStop::NoMemory),
    }
}

/// The entries of a leaf's chunk in a group of `rows` rows, in a file whose footer begins at `end`.
pub(crate) fn read_leaf<S: Shelf>(
    alloc: Global,
    shelf: &mut S,
    name: &Text,
    end: u64,
    rows: u64,
    leaf: &Leaf,
    chunk: &ChunkMeta,
) -> Result<ChunkEntries, ReadStop<Rule>>
    ensures read { ReadsFile (λ entries. entries) (S.seen shelf.old) (S.seen shelf.new) name.now (chunk_plan name.now end leaf.now chunk.now) (chunk_seen end rows leaf.now chunk.now) result }
    ensures rows { IfOk result (λ entries. has_rows rows entries ≡ true) }
{
    match chunk_range(chunk, leaf, end) {
        Ok(range) => {
            let values = values_in(&chunk.meta_data);
            read_range(alloc, shelf, name, range, leaf, values, rows)
        }
        Err(rule) => Err(ReadStop::Violated(rule)),
    }
}
