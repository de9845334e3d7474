//! Values of one leaf.

ghost use Rattle.std.specs.Prelude.{◌≡◌, ◌+◌, ◌^◌, ◌<◌, ◌≤◌, true, false, length, IfSome, IfNone};
ghost use Rattle.shred_schema.specs.Groups.{slot_width};
ghost use Rattle.record_assembly.specs.Reading.{only_cell, bytes_read, value_read};
ghost use Rattle.column_assembly.specs.Items.{cell_of, number_in, is_no_value};
ghost use Rattle.column_assembly.specs.Leaves.{heads, TakenAt, Passed};

use crate::entry_cursor::Cursor;
use crate::leaf_range::take_null;
use shred_schema::Slot;
use vs_bytes::{Bytes, Cell, Prim};

/// Takes the bytes of a leaf's first item, where that is one entry with bytes and these levels.
fn take_bytes(cursors: &mut [Cursor], leaf: usize, lists: u16, rep: u16, def: u16) -> Option<Bytes>
    requires { leaf < length cursors.old }
    ensures bytes { result ≡ bytes_read rep def (heads lists cursors.old leaf) }
    ensures taken { IfSome result (λ bytes. TakenAt cursors.old cursors.new leaf lists) }
{
    let cursor = &mut cursors[leaf];
    match cursor.take_cell(lists, rep, def)? {
        Cell::Bytes(bytes) => Some(bytes),
        _ => None,
    }
}

/// Takes what the leaf of a slot says, if the slot has one: a value, or that there is none. `None` where it says
/// neither; then how far the leaf is taken is open.
#[tactic(auto, using(crate::proofs::Passing::passed_none, crate::proofs::Passing::passed_one))]
pub fn take_value(
    cursors: &mut [Cursor],
    leaf: usize,
    slot: Slot,
    lists: u16,
    rep: u16,
    def: u16,
) -> Option<Option<Bytes>>
    requires inside { leaf + slot_width slot ≤ length cursors.old }
    requires level { def + 1 < 2 ^ 16 }
    ensures value { result ≡ value_read slot true rep def (heads lists cursors.old leaf) }
    ensures passed { IfSome result (λ value. Passed cursors.old cursors.new leaf (slot_width slot) lists) }
{
    match slot {
        Slot::Absent => Some(None),
        Slot::Required => Some(Some(take_bytes(cursors, leaf, lists, rep, def)?)),
        Slot::Optional => {
            if take_null(cursors, leaf, lists, rep, def) {
                return Some(None);
            }
            Some(Some(take_bytes(cursors, leaf, lists, rep, def + 1)?))
        }
    }
}

/// Takes the number of a leaf, where it has these levels and is one of the kind. `None` where it isn't; then nothing is
/// taken.
#[inline(always)]
#[tactic(auto, using(crate::proofs::Passing::passed_one))]
pub fn take_number(
    cursors: &mut [Cursor],
    leaf: usize,
    prim: Prim,
    lists: u16,
    rep: u16,
    def: u16,
) -> Option<i128>
    requires { leaf < length cursors.old }
    ensures number { result ≡ number_in (cell_of prim (only_cell rep def (heads lists cursors.old leaf))) }
    ensures passed { IfSome result (λ n. Passed cursors.old cursors.new leaf 1 lists) }
    ensures kept { IfNone result (cursors.new ≡ cursors.old) }
{
    let cursor = &mut cursors[leaf];
    cursor.take_number(prim, lists, rep, def)
}

/// Passes a slot that has no value, and says whether it has none. Where it has one, nothing is taken.
#[inline(always)]
#[tactic(auto, using(crate::proofs::Passing::passed_none, crate::proofs::Passing::passed_one, crate::proofs::OneEntry::some_value))]
pub fn take_no_value(
    cursors: &mut [Cursor],
    leaf: usize,
    slot: Slot,
    lists: u16,
    rep: u16,
    def: u16,
) -> bool
    requires inside { leaf + slot_width slot ≤ length cursors.old }
    ensures none { result ≡ is_no_value (value_read slot true rep def (heads lists cursors.old leaf)) }
    ensures passed { result ≡ true → Passed cursors.old cursors.new leaf (slot_width slot) lists }
    ensures kept { result ≡ false → cursors.new ≡ cursors.old }
{
    match slot {
        Slot::Absent => true,
        Slot::Required => false,
        Slot::Optional => take_null(cursors, leaf, lists, rep, def),
    }
}

/// Takes the cell of a leaf, where it has these levels and is one of the kind. `None` where it isn't; then nothing is
/// taken.
#[inline(always)]
#[tactic(auto, using(crate::proofs::Passing::passed_one))]
pub fn take_cell(
    cursors: &mut [Cursor],
    leaf: usize,
    prim: Prim,
    lists: u16,
    rep: u16,
    def: u16,
) -> Option<Cell>
    requires { leaf < length cursors.old }
    ensures cell { result ≡ cell_of prim (only_cell rep def (heads lists cursors.old leaf)) }
    ensures passed { IfSome result (λ cell. Passed cursors.old cursors.new leaf 1 lists) }
    ensures kept { IfNone result (cursors.new ≡ cursors.old) }
{
    let cursor = &mut cursors[leaf];
    cursor.take_suited(prim, lists, rep, def)
}
