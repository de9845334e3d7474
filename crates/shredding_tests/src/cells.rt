//! Values that fit a kind of cells, and the values that cells stand for.

use json_tree::{Number, Tree};
use shred_schema::{fit, tree_of};
use std::process::Abort;
use std::test::Fail;
use vs_bytes::{Cell, Prim, Text};

// Two places after the point.
const HUNDREDTHS: Prim = Prim::Decimal { p: 9, s: 2 };

// 1.5 is 150 hundredths.
#[test]
fn a_number_fits_with_zeros_at_its_end(rt: HostRuntime) -> Result<(), Fail> {
    let tree = Tree::Num(Number::of(15, 1));
    let cell = fit(rt.alloc(), HUNDREDTHS, &tree)?;
    assert!(&rt; matches!(cell, Some(Cell::Num(150))));
    Ok(())
}

#[test]
fn hundredths_lose_the_zeros_at_their_end(rt: HostRuntime) -> Result<(), Fail> {
    let tree = tree_of(rt.alloc(), HUNDREDTHS, &Cell::Num(150))?;
    match tree {
        Tree::Num(number) => assert!(&rt; number == Number::of(15, 1)),
        _ => assert!(&rt; false),
    }
    Ok(())
}

#[test]
fn a_text_fits_as_its_bytes(rt: HostRuntime) -> Result<(), Fail> {
    let tree = Tree::Text(Text::from_str(rt.alloc(), "x")?);
    match fit(rt.alloc(), Prim::Text, &tree)? {
        Some(Cell::Bytes(bytes)) => assert_eq!(&rt; bytes.as_slice(), b"x".as_slice()),
        _ => assert!(&rt; false),
    }
    Ok(())
}
