//! Values and parts that are absent, put into leaves.

ghost use Rattle.std.specs.Prelude.{◌≡◌, ◌==◌, ◌+◌, ◌^◌, ◌<◌, ◌≤◌, length, IfOk, OnOk};
ghost use Rattle.shred_schema.specs.Groups.{kind_width, slot_width};
ghost use Rattle.shred_schema.specs.Lawful.{max_leaves};
ghost use Rattle.shred_schema.specs.Recs.{empty};
ghost use Rattle.shred_schema.specs.Views.{kind_of};
ghost use Rattle.vs_bytes.specs.declared.leaf_columns.Cell.TheVariants as leaf_cell;
ghost use Rattle.level_striping.specs.Entries.{in_leaf, cell_at, value_entries, part_entries};
ghost use Rattle.level_striping.specs.Gains.{Gains};

use crate::levels::Levels;
use crate::putting::{put_cell, put_null, put_nulls};
use shred_schema::{Slot, Typed, typed_width};
use std::alloc::Global;
use vs_bytes::{Bytes, Cell, EntryList, NoMemory};

fn copied(alloc: Global, bytes: &Bytes) -> Result<Bytes, NoMemory>
    ensures { IfOk result (λ copy. copy ≡ bytes.now) }
{
    Ok(Bytes::from_slice(alloc, bytes.as_slice())?)
}

/// Puts a copy of a cell into a leaf, at the definition level of `levels`. Each kind has a way of its own, so that an
/// entry is written where it stays.
pub(crate) fn put_copy(
    alloc: Global,
    leaves: &mut [EntryList],
    leaf: usize,
    levels: Levels,
    cell: &Cell,
) -> Result<(), NoMemory>
    requires { leaf < length leaves.old }
    ensures { OnOk result (Gains leaves.old leaves.new (λ j. in_leaf (j == leaf) (cell_at levels.rep levels.def cell.now))) }
{
    match cell {
        Cell::Bool(truth) => put_cell(leaves, leaf, levels, Cell::Bool(*truth)),
        Cell::Num(number) => put_cell(leaves, leaf, levels, Cell::Num(*number)),
        Cell::Bytes(bytes) => put_bytes(alloc, leaves, leaf, levels, bytes),
    }
}

/// Puts bytes into a leaf, at the definition level of `levels`.
pub(crate) fn put_bytes(
    alloc: Global,
    leaves: &mut [EntryList],
    leaf: usize,
    levels: Levels,
    bytes: &Bytes,
) -> Result<(), NoMemory>
    requires { leaf < length leaves.old }
    ensures { OnOk result (Gains leaves.old leaves.new (λ j. in_leaf (j == leaf) (cell_at levels.rep levels.def (leaf_cell.Bytes bytes.now)))) }
{
    put_cell(leaves, leaf, levels, Cell::Bytes(copied(alloc, bytes)?))
}

/// Puts a value into the leaf of its slot, if the slot has one, and answers the leaf after it.
pub(crate) fn put_value(
    alloc: Global,
    leaves: &mut [EntryList],
    leaf: usize,
    slot: Slot,
    levels: Levels,
    value: &Option<Bytes>,
) -> Result<usize, NoMemory>
    requires inside { leaf + slot_width slot ≤ length leaves.old }
    requires level { levels.def + 1 < 2 ^ 16 }
    ensures next { IfOk result (λ next. next ≡ leaf + slot_width slot) }
    ensures gains { OnOk result (Gains leaves.old leaves.new (λ j. in_leaf (j == leaf) (value_entries slot levels.rep levels.def value.now))) }
{
    let there = match slot {
        Slot::Absent => return Ok(leaf),
        Slot::Required => levels,
        Slot::Optional => levels.deeper(),
    };
    match value {
        None => put_null(leaves, leaf, levels)?,
        Some(bytes) => put_bytes(alloc, leaves, leaf, there, bytes)?,
    }
    Ok(leaf + 1)
}

/// Puts a typed part that is absent, and answers the leaf after its leaves.
pub(crate) fn put_absent(
    leaves: &mut [EntryList],
    leaf: usize,
    typed: &Typed,
    levels: Levels,
) -> Result<usize, NoMemory>
    requires inside { leaf + kind_width (kind_of typed.now) ≤ length leaves.old }
    requires short { length leaves.old ≤ max_leaves }
    ensures next { IfOk result (λ next. next ≡ leaf + kind_width (kind_of typed.now)) }
    ensures gains { OnOk result (Gains leaves.old leaves.new (part_entries (kind_of typed.now) leaf levels.rep levels.lists levels.def empty)) }
{
    let next = leaf + typed_width(typed);
    put_nulls(leaves, leaf, next, levels)?;
    Ok(next)
}
