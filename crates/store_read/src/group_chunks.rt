//! The chunks of a row group in its file, read.

ghost use Rattle.std.specs.Prelude.{◌≡◌, ◌<◌, ℕ, [], true, length, slice_index_or, IfOk};
ghost use Rattle.group_reading.specs.ChunkEntries.{has_rows};
ghost use Rattle.thrift_structs.specs.ChunkRanges.{count_of};
ghost use Rattle.shred_schema.specs.Ranges.{reads};
ghost use Rattle.group_reading.specs.GroupRows.{at_place, leaf_seen};
ghost use Rattle.group_reading.specs.declared.group_faults.PlaceInGroup.TheVariants as place;
ghost use Rattle.store_read.specs.Ranges.{ReadsFile};
ghost use Rattle.store_read.specs.FileGroups.{rows_in, nth_seen, nth_plan, leaf_plan, leaves_plan, entries_seen};

use crate::leaf_chunks::read_leaf;
use crate::read_stop::ReadStop;
use chunks::ChunkEntries;
use file_columns::FileColumn;
use footer_structs::GroupMeta;
use group_reading::{GroupFault, PlaceInGroup};
use shelf::Shelf;
use shred_schema::Mask;
use std::alloc::Global;
use vs_bytes::{Rule, Sequence, Text};

/// How many rows a group has.
pub(crate) fn rows_in(group: &GroupMeta) -> u64
    ensures { result ≡ rows_in group.now }
{
    if group.num_rows < 0 {
        0
    } else {
        group.num_rows.unsigned_abs()
    }
}

// The entries of leaf j.
#[tactic(auto, unfolding(crate::specs::FileGroups::nth_seen, crate::specs::FileGroups::nth_plan))]
fn read_nth<S: Shelf>(
    alloc: Global,
    shelf: &mut S,
    name: &Text,
    end: u64,
    column: &FileColumn,
    group: &GroupMeta,
    j: usize,
) -> Result<ChunkEntries, ReadStop<Rule>>
    requires leaf { j < length column.now.leaves }
    requires place { j < length column.now.places }
    ensures read { ReadsFile (λ entries. entries) (S.seen shelf.old) (S.seen shelf.new) name.now (nth_plan name.now end column.now group.now j) (nth_seen end column.now group.now j) result }
    ensures rows { IfOk result (λ entries. has_rows (rows_in group.now) entries ≡ true) }
{
    let place = column.places.as_slice()[j];
    match group.columns.as_slice().get(place) {
        Some(chunk) => {
            let leaf = column.leaves.as_slice()[j];
            read_leaf(alloc, shelf, name, end, rows_in(group), &leaf, chunk)
        }
        None => Err(ReadStop::Violated(Rule::FooterField)),
    }
}

// The entries of leaf j, none where it isn't read.
fn next_leaf<S: Shelf>(
    alloc: Global,
    shelf: &mut S,
    name: &Text,
    end: u64,
    column: &FileColumn,
    group: &GroupMeta,
    mask: &Mask,
    j: usize,
) -> Result<ChunkEntries, ReadStop<GroupFault>>
    requires leaf { j < length column.now.leaves }
    requires place { j < length column.now.places }
    requires mask { j < length mask.now }
    ensures read { ReadsFile (λ entries. entries) (S.seen shelf.old) (S.seen shelf.new) name.now (leaf_plan (reads mask.now) name.now end column.now group.now j) (λ file. leaf_seen (reads mask.now) (λ k. nth_seen end column.now group.now k file) j) result }
    ensures rows { IfOk result (λ entries. reads mask.now j ≡ true → has_rows (rows_in group.now) entries ≡ true) }
{
    let read = mask.as_slice()[j];
    if !read {
        return Ok(ChunkEntries::new(alloc));
    }
    match read_nth(alloc, shelf, name, end, column, group, j) {
        Ok(entries) => Ok(entries),
        Err(ReadStop::Violated(rule)) => Err(ReadStop::Violated(GroupFault {
            rule,
            place: PlaceInGroup::Leaf(j),
        })),
        Err(ReadStop::Failed) => Err(ReadStop::Failed),
        Err(ReadStop::NoMemory) => Err(ReadStop::NoMemory),
    }
}

/// The entries of the leaves that are read, none of each other leaf.
pub(crate) fn read_leaves<S: Shelf>(
    alloc: Global,
    shelf: &mut S,
    name: &Text,
    end: u64,
    column: &FileColumn,
    group: &GroupMeta,
    mask: &Mask,
) -> Result<Sequence<ChunkEntries>, ReadStop<GroupFault>>
    requires leaves { length column.now.leaves ≡ length mask.now }
    requires places { length column.now.places ≡ length mask.now }
    ensures read { ReadsFile (λ leaves. leaves) (S.seen shelf.old) (S.seen shelf.new) name.now (leaves_plan (reads mask.now) name.now end column.now group.now 0 (length mask.now)) (entries_seen (reads mask.now) end column.now group.now 0 (length mask.now)) result }
    ensures leaves { IfOk result (λ leaves. length leaves ≡ length mask.now) }
    ensures rows { IfOk result (λ leaves. (j : ℕ) → j < length mask.now → reads mask.now j ≡ true → has_rows (rows_in group.now) (slice_index_or leaves j []) ≡ true) }
{
    let mut leaves = Sequence::new(alloc);
    for j in 0..mask.len() {
        match next_leaf(alloc, shelf, name, end, column, group, mask, j) {
            Ok(entries) => match leaves.push(entries) {
                Ok(()) => {}
                Err(_) => return Err(ReadStop::NoMemory),
            },
            Err(stop) => return Err(stop),
        }
    }
    Ok(leaves)
}
