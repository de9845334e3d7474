//! Scalars that are there: the way of most fields and items.
//!
//! Each call answers nothing, and takes nothing, where a node has another typed part or its cell isn't there. The caller
//! then takes the way of all parts.

ghost use Rattle.std.specs.Prelude.{◌≡◌, ◌+◌, ◌^◌, ◌<◌, ◌≤◌, length, Some, None, IfSome, IfNone};
ghost use Rattle.vs_bytes.specs.declared.leaf_columns.Cell.TheVariants as leaf_cell;
ghost use Rattle.shred_schema.specs.Groups.{kind_width};
ghost use Rattle.shred_schema.specs.Recs.{rec, cell};
ghost use Rattle.shred_schema.specs.Views.{kind_of, rec_of};
ghost use Rattle.column_assembly.specs.Leaves.{heads, Passed};
ghost use Rattle.record_taking.specs.Parts.{typed_read};

use crate::levels::Levels;
use column_assembly::{Cursor, take_cell, take_number};
use shred_schema::{Part, Record, Typed};
use vs_bytes::Cell;

/// Takes the number of a scalar. `None` where a node has another typed part, or no number is there: then nothing is
/// taken.
#[inline(always)]
#[tactic(auto, using(column_assembly::proofs::OneEntry::number_back))]
pub(crate) fn take_scalar_number(
    cursors: &mut [Cursor],
    leaf: usize,
    typed: &Typed,
    levels: Levels,
) -> Option<i128>
    requires inside { leaf + kind_width (kind_of typed.now) ≤ length cursors.old }
    requires level { levels.def + 1 < 2 ^ 16 }
    ensures read { IfSome result (λ n. typed_read (kind_of typed.now) leaf levels.rep levels.lists levels.def (heads levels.lists cursors.old) ≡ Some (cell (leaf_cell.Num n))) }
    ensures width { IfSome result (λ n. kind_width (kind_of typed.now) ≡ 1) }
    ensures passed { IfSome result (λ n. Passed cursors.old cursors.new leaf (kind_width (kind_of typed.now)) levels.lists) }
    ensures kept { IfNone result (cursors.new ≡ cursors.old) }
{
    match typed {
        Typed::Prim(prim) => take_number(
            cursors,
            leaf,
            *prim,
            levels.lists,
            levels.rep,
            levels.def + 1,
        ),
        _ => None,
    }
}

/// Takes the cell of a scalar. `None` where a node has another typed part, or its cell isn't there: then nothing is
/// taken.
#[inline(always)]
pub(crate) fn take_scalar(
    cursors: &mut [Cursor],
    leaf: usize,
    typed: &Typed,
    levels: Levels,
) -> Option<Cell>
    requires inside { leaf + kind_width (kind_of typed.now) ≤ length cursors.old }
    requires level { levels.def + 1 < 2 ^ 16 }
    ensures read { IfSome result (λ c. typed_read (kind_of typed.now) leaf levels.rep levels.lists levels.def (heads levels.lists cursors.old) ≡ Some (cell c)) }
    ensures width { IfSome result (λ c. kind_width (kind_of typed.now) ≡ 1) }
    ensures passed { IfSome result (λ c. Passed cursors.old cursors.new leaf (kind_width (kind_of typed.now)) levels.lists) }
    ensures kept { IfNone result (cursors.new ≡ cursors.old) }
{
    match typed {
        Typed::Prim(prim) => take_cell(
            cursors,
            leaf,
            *prim,
            levels.lists,
            levels.rep,
            levels.def + 1,
        ),
        _ => None,
    }
}

/// The record of a number without a value beside it.
#[inline(always)]
pub(crate) fn number_record(number: i128) -> Record
    ensures { rec_of result ≡ rec None (cell (leaf_cell.Num number)) }
{
    Record {
        value: None,
        typed: Some(Part::Cell(Cell::Num(number))),
    }
}
