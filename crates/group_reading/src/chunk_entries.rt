//! The entries of a chunk in its row group.

ghost use Rattle.std.specs.Prelude.{◌≡◌, true, IfOk};
ghost use Rattle.vs_bytes.specs.Outcome.{Makes};
ghost use Rattle.group_reading.specs.ChunkEntries.{has_rows, chunk_entries};

use chunks::{ChunkEntries, ChunkReader};
use std::alloc::Global;
use vs_bytes::{Bytes, Leaf, Refusal, Refused, Rule};

/// The entries of a leaf column's chunk, which has `values` of them by its metadata, in a group of `rows` rows; or the
/// first rule that the chunk violates.
///
/// After the rules of its pages and `ValueCount` comes `RowCount`: the chunk doesn't begin with a row, or hasn't as many
/// rows as its group.
#[tactic(auto, unfolding(crate::specs::ChunkEntries::chunk_entries))]
pub fn read_chunk(
    alloc: Global,
    leaf: &Leaf,
    bytes: Bytes,
    values: u64,
    rows: u64,
) -> Result<ChunkEntries, Refusal>
    ensures exact { Makes (λ entries. entries) result (chunk_entries leaf.now values rows bytes) }
    ensures rows { IfOk result (λ entries. has_rows rows entries ≡ true) }
{
    match ChunkReader::new(bytes, *leaf, values).into_entries(alloc) {
        Ok(entries) => {
            if entries.has_rows(rows) {
                Ok(entries)
            } else {
                Err(Refused::Fault(Rule::RowCount))
            }
        }
        Err(refusal) => Err(refusal),
    }
}
