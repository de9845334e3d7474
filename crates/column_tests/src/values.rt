//! PLAIN values.

ghost use Rattle.std.specs.Prelude.{◌≡◌, [], ◌∷◌, pos, IfOk};
ghost use Rattle.vs_bytes.specs.declared.leaf_columns.Cell.TheVariants as cell;

use plain_values::{append, decode, encode};
use std::alloc::Global;
use std::process::Abort;
use std::test::Fail;
use vs_bytes::{Cell, Leaf, NoMemory, Phys, Prim};

// A column of integers of 32 bits.
const INTEGERS: Leaf = Leaf {
    rep: 0,
    def: 1,
    phys: Phys::Int32,
    prim: Prim::Int32,
};

// The integers 5 and 258.
fn two_integers(alloc: Global) -> Result<Vec<Cell>, NoMemory>
    ensures { IfOk result (λ cells. cells.items ≡ cell.Num (pos 5) ∷ (cell.Num (pos 258) ∷ [])) }
{
    let mut cells = Vec::new(alloc);
    cells.push(Cell::Num(5))?;
    cells.push(Cell::Num(258))?;
    Ok(cells)
}

#[test]
#[tactic(auto, using(crate::proofs::Given::two_fit))]
fn integers_are_written(rt: HostRuntime) -> Result<(), Fail> {
    let cells = two_integers(rt.alloc())?;
    let mut bytes = Vec::new(rt.alloc());
    encode(&mut bytes, &INTEGERS, cells.as_slice())?;
    assert_eq!(&rt;
        bytes.as_slice(),
        b"\x05\x00\x00\x00\x02\x01\x00\x00".as_slice()
    );
    append(&mut bytes, &INTEGERS, cells.as_slice())?;
    assert_eq!(&rt; bytes.len(), 16);
    Ok(())
}

#[test]
fn integers_are_read(rt: HostRuntime) -> Result<(), Fail> {
    match decode(
        rt.alloc(),
        &INTEGERS,
        2,
        b"\x05\x00\x00\x00\x02\x01\x00\x00",
    ) {
        Ok(cells) => assert_eq!(&rt; cells.len(), 2),
        Err(_) => assert!(&rt; false, "the cells are read"),
    }
    Ok(())
}
