//! Values that fit a kind of cells, and the values that cells stand for.

ghost use Rattle.std.specs.Prelude.{◌≡◌, true, IfOk};
ghost use Rattle.std.specs.Option.{option_map};
ghost use Rattle.exact_num.specs.NumberOf.{decimal_of};
ghost use Rattle.json_tree.specs.View.{view};
ghost use Rattle.vs_bytes.specs.declared.leaf_columns.PrimKind.TheVariants as kind;
ghost use Rattle.shred_schema.specs.Cells.{is_of_prim};
ghost use Rattle.shred_schema.specs.Fits.{within, over_in, number_in, number_cell, fit, places_of, tree_of};
ghost use Rattle.shred_schema.specs.Lawful.{IsDecimalKind, IsWritten, MayHold};

use exact_num::{Number, fits};
use json_tree::Tree;
use std::alloc::Global;
use vs_bytes::{Bytes, Cell, NoMemory, Prim, Text};

/// The cell that a value has in a column of this kind, or `None` exactly where it doesn't fit: a truth value fits
/// BOOLEAN, a text STRING, an integer within the range an INTEGER, and a number a DECIMAL that can hold it as it is.
pub fn fit(alloc: Global, prim: Prim, tree: &Tree) -> Result<Option<Cell>, NoMemory>
    requires { IsWritten prim }
    ensures { IfOk result (λ found. found ≡ fit prim (view tree.now)) }
{
    match prim {
        Prim::Raw => Ok(None),
        Prim::Boolean => Ok(truth_cell(tree)),
        Prim::Int8 => Ok(whole_cell(tree, i128::from(i8::MIN), i128::from(i8::MAX))),
        Prim::Int16 => Ok(whole_cell(tree, i128::from(i16::MIN), i128::from(i16::MAX))),
        Prim::Int32 => Ok(whole_cell(tree, i128::from(i32::MIN), i128::from(i32::MAX))),
        Prim::Int64 => Ok(whole_cell(tree, i128::from(i64::MIN), i128::from(i64::MAX))),
        Prim::Decimal { p, s } => Ok(decimal_cell(tree, p, s)),
        Prim::Text => text_cell(alloc, tree),
        Prim::Refused(_) => Ok(None),
    }
}

fn truth_cell(tree: &Tree) -> Option<Cell>
    ensures { result ≡ fit kind.Boolean (view tree.now) }
{
    match tree {
        Tree::Bool(truth) => Some(Cell::Bool(*truth)),
        _ => None,
    }
}

fn text_cell(alloc: Global, tree: &Tree) -> Result<Option<Cell>, NoMemory>
    ensures { IfOk result (λ found. found ≡ fit kind.Text (view tree.now)) }
{
    match tree {
        Tree::Text(text) => Ok(Some(Cell::Bytes(Bytes::from_slice(
            alloc,
            text.as_str().as_bytes(),
        )?))),
        _ => Ok(None),
    }
}

fn whole_cell(tree: &Tree, low: i128, high: i128) -> Option<Cell>
    ensures { result ≡ number_cell (within low high) (view tree.now) }
{
    match tree {
        Tree::Num(number) => whole(*number, low, high).map(Cell::Num),
        _ => None,
    }
}

fn decimal_cell(tree: &Tree, p: u8, s: u8) -> Option<Cell>
    requires { IsDecimalKind p s }
    ensures { result ≡ number_cell (over_in p s) (view tree.now) }
{
    match tree {
        Tree::Num(number) => over(*number, p, s).map(Cell::Num),
        _ => None,
    }
}

fn whole(number: Number, low: i128, high: i128) -> Option<i128>
    ensures { result ≡ within low high (decimal_of number) }
{
    let unscaled = number.unscaled();
    if number.scale() == 0 && low <= unscaled && unscaled <= high {
        Some(unscaled)
    } else {
        None
    }
}

fn over(number: Number, p: u8, s: u8) -> Option<i128>
    requires { IsDecimalKind p s }
    ensures { result ≡ over_in p s (decimal_of number) }
{
    fits(number, p, s)
}

fn places_of(prim: Prim) -> u8
    ensures { result ≡ places_of prim }
{
    match prim {
        Prim::Decimal { s, .. } => s,
        _ => 0,
    }
}

/// The value that a cell of a column of this kind stands for.
pub fn tree_of(alloc: Global, prim: Prim, cell: &Cell) -> Result<Tree, NoMemory>
    requires read { MayHold prim }
    requires cell { is_of_prim prim cell.now ≡ true }
    ensures { IfOk result (λ tree. view tree ≡ tree_of prim cell.now) }
{
    match cell {
        Cell::Bool(truth) => Ok(Tree::Bool(*truth)),
        Cell::Num(unscaled) => Ok(Tree::Num(Number::of(*unscaled, places_of(prim)))),
        Cell::Bytes(bytes) => Ok(Tree::Text(Text::from_utf8_slice(alloc, bytes.as_slice())?)),
    }
}
