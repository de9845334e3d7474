//! Which cells a kind of values has.

ghost use Rattle.std.specs.Prelude.{◌≡◌, ◌^◌, nat_lt, unsigned_abs};
ghost use Rattle.exact_num.specs.Decimal.{max_digits};
ghost use Rattle.exact_num.specs.Unscaled.{reach, half};
ghost use Rattle.vs_bytes.specs.declared.leaf_columns.Cell.TheVariants as leaf_cell;
ghost use Rattle.shred_schema.specs.Cells.{is_of_prim};

use vs_bytes::{Cell, Prim, is_utf8};

/// Whether a cell is one of this kind (VariantShredding.md, "Shredded Value Types").
pub(crate) fn suits(prim: Prim, cell: &Cell) -> bool
    ensures { result ≡ is_of_prim prim cell.now }
{
    match cell {
        Cell::Bool(_) => match prim {
            Prim::Boolean => true,
            _ => false,
        },
        Cell::Num(number) => number_suits(prim, *number),
        Cell::Bytes(bytes) => match prim {
            Prim::Raw => true,
            Prim::Text => is_utf8(bytes.as_slice()),
            _ => false,
        },
    }
}

/// Whether a number is one of this kind.
#[inline(always)]
#[tactic(auto, unfolding(exact_num::specs::Unscaled::half))]
pub(crate) fn number_suits(prim: Prim, number: i128) -> bool
    ensures { result ≡ is_of_prim prim (leaf_cell.Num number) }
{
    match prim {
        Prim::Int8 => reach(number) < 1 << 31,
        Prim::Int16 => reach(number) < 1 << 31,
        Prim::Int32 => reach(number) < 1 << 31,
        Prim::Int64 => reach(number) < 1 << 63,
        Prim::Decimal { .. } => {
            number.unsigned_abs() < 100_000_000_000_000_000_000_000_000_000_000_000_000
        }
        _ => false,
    }
}

/// How far an integer reaches: both -1 and 0 reach 0.
fn reach(number: i128) -> u128
    ensures { result ≡ reach number }
{
    if number < 0 {
        number.unsigned_abs() - 1
    } else {
        number.unsigned_abs()
    }
}
