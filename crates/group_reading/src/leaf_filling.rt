//! Entries of chunks, fed to the assembler in pieces.

ghost use Rattle.std.specs.Prelude.{◌≡◌, ◌+◌, ◌<◌, ◌≤◌, ℕ, [], true, false, length, slice_index_or, IfOk, OnOk};
ghost use Rattle.shred_schema.specs.Groups.{width};
ghost use Rattle.shred_schema.specs.Ranges.{is_among, reads};
ghost use Rattle.shred_schema.specs.Views.{group_of};
ghost use Rattle.row_assembler.specs.Assembly.{IsFor, IsReadLeaf};
ghost use Rattle.group_reading.specs.Filling.{Held, TakenFrom, Filled};

use chunks::ChunkEntries;
use row_assembler::Assembler;
use shred_schema::{Column, Mask};
use std::alloc::Global;
use vs_bytes::{EntryList, NoMemory};

// The entries of a leaf's first piece: few enough, 16 KB a leaf, that a wide group stays small.
const PIECE: usize = 256;

// The size of the piece after one of this size: twice as much, so that the entries of a long row aren't looked through
// again for each piece.
fn doubled(most: usize) -> usize
    requires { 1 ≤ most }
    ensures { 1 ≤ result }
{
    if most < 1 << 32 { 2 * most } else { most }
}

// The next piece of a leaf's chunk.
#[tactic(auto, using(crate::proofs::Filling::taken_from))]
fn take_piece(
    alloc: Global,
    chunks: &mut [ChunkEntries],
    leaf: usize,
    most: usize,
) -> Result<EntryList, NoMemory>
    requires leaf { leaf < length chunks.old }
    requires some { 1 ≤ most }
    ensures { IfOk result (λ piece. TakenFrom chunks.old chunks.new leaf piece) }
{
    let chunk = &mut chunks[leaf];
    chunk.take(alloc, most)
}

// Feeds a piece of a leaf that is read.
#[tactic(auto, using(crate::proofs::Filling::read_leaf, crate::proofs::Filling::piece_fed, crate::proofs::Filling::piece_fewer))]
fn feed_piece(
    alloc: Global,
    assembler: &mut Assembler,
    chunks: &mut [ChunkEntries],
    column: &Column,
    mask: &Mask,
    leaf: usize,
    most: usize,
) -> Result<(), NoMemory>
    requires column { IsFor assembler.old column.now.optional (group_of column.now.node) mask.now }
    requires chunks { length chunks.old ≡ 1 + width (group_of column.now.node) }
    requires leaf { leaf < 1 + width (group_of column.now.node) }
    requires read { reads mask.now leaf ≡ true }
    requires some { 1 ≤ most }
    ensures column { OnOk result (IsFor assembler.new column.now.optional (group_of column.now.node) mask.now) }
    ensures filled { OnOk result (Filled assembler.old chunks.old assembler.new chunks.new) }
    ensures fewer { OnOk result (1 ≤ length (slice_index_or chunks.old leaf []) → length (slice_index_or chunks.new leaf []) < length (slice_index_or chunks.old leaf [])) }
{
    let mut piece = take_piece(alloc, chunks, leaf, most)?;
    assembler.feed(alloc, leaf, &mut piece)
}

// Whether a leaf is given more: where `all` says so, or its next row isn't whole; and its chunk has some.
#[tactic(auto, using(crate::proofs::Filling::some_left))]
fn wants_more(assembler: &Assembler, chunks: &[ChunkEntries], leaf: usize, all: bool) -> bool
    requires read { IsReadLeaf assembler.now leaf }
    requires leaf { leaf < length chunks.now }
    ensures some { result ≡ true → 1 ≤ length (slice_index_or chunks.now leaf []) }
    ensures spent { result ≡ false → all ≡ true → slice_index_or chunks.now leaf [] ≡ [] }
{
    if chunks[leaf].is_empty() {
        return false;
    }
    all || !assembler.is_whole(leaf)
}

// Feeds pieces of a leaf that is read, until its next row is whole or its chunk is used up; where `all` says so, until
// its chunk is used up.
#[tactic(auto, using(crate::proofs::Filling::read_leaf))]
fn fill_leaf(
    alloc: Global,
    assembler: &mut Assembler,
    chunks: &mut [ChunkEntries],
    column: &Column,
    mask: &Mask,
    leaf: usize,
    all: bool,
) -> Result<(), NoMemory>
    requires column { IsFor assembler.old column.now.optional (group_of column.now.node) mask.now }
    requires chunks { length chunks.old ≡ 1 + width (group_of column.now.node) }
    requires leaf { leaf < 1 + width (group_of column.now.node) }
    requires read { reads mask.now leaf ≡ true }
    ensures column { OnOk result (IsFor assembler.new column.now.optional (group_of column.now.node) mask.now) }
    ensures filled { OnOk result (Filled assembler.old chunks.old assembler.new chunks.new) }
    ensures spent { OnOk result (all ≡ true → slice_index_or chunks.new leaf [] ≡ []) }
{
    let mut most = PIECE;
    while wants_more(assembler, chunks, leaf, all) {
        feed_piece(alloc, assembler, chunks, column, mask, leaf, most)?;
        most = doubled(most);
    }
    Ok(())
}

// The same of a leaf that may not be read: then nothing is fed.
#[tactic(auto, using(crate::proofs::Filling::nothing_filled))]
fn fill_read(
    alloc: Global,
    assembler: &mut Assembler,
    chunks: &mut [ChunkEntries],
    column: &Column,
    mask: &Mask,
    leaf: usize,
    all: bool,
) -> Result<(), NoMemory>
    requires column { IsFor assembler.old column.now.optional (group_of column.now.node) mask.now }
    requires told { length mask.now ≡ 1 + width (group_of column.now.node) }
    requires chunks { length chunks.old ≡ 1 + width (group_of column.now.node) }
    requires leaf { leaf < 1 + width (group_of column.now.node) }
    ensures column { OnOk result (IsFor assembler.new column.now.optional (group_of column.now.node) mask.now) }
    ensures filled { OnOk result (Filled assembler.old chunks.old assembler.new chunks.new) }
    ensures spent { OnOk result (all ≡ true → reads mask.now leaf ≡ true → slice_index_or chunks.new leaf [] ≡ []) }
{
    let read = mask.as_slice()[leaf];
    if read {
        fill_leaf(alloc, assembler, chunks, column, mask, leaf, all)
    } else {
        Ok(())
    }
}

/// Feeds each leaf that is read: until its next row is whole or its chunk is used up; where `all` says so, all that is
/// left.
pub(crate) fn fill_leaves(
    alloc: Global,
    assembler: &mut Assembler,
    chunks: &mut [ChunkEntries],
    column: &Column,
    mask: &Mask,
    all: bool,
) -> Result<(), NoMemory>
    requires held { Held column.now.optional (group_of column.now.node) mask.now assembler.old chunks.old }
    ensures held { OnOk result (Held column.now.optional (group_of column.now.node) mask.now assembler.new chunks.new) }
    ensures filled { OnOk result (Filled assembler.old chunks.old assembler.new chunks.new) }
    ensures spent { OnOk result (all ≡ true → (j : ℕ) → is_among j 0 (1 + width (group_of column.now.node)) ≡ true → reads mask.now j ≡ true → slice_index_or chunks.new j [] ≡ []) }
{
    for leaf in 0..chunks.len() {
        fill_read(alloc, assembler, chunks, column, mask, leaf, all)?;
    }
    Ok(())
}
