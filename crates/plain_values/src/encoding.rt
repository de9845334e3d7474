//! The bytes of cells.

ghost use Rattle.std.specs.Prelude.{◌≡◌, ◌≤◌, ◌<◌, ◌^◌, ◌++◌, length, map, OnOk, OnErr};
ghost use Rattle.std.specs.List.{All, flat_map};
ghost use Rattle.vs_bytes.specs.Outcome.{Grows};
ghost use Rattle.vs_bytes.specs.PackedNumbers.{packed};
ghost use Rattle.plain_values.specs.Written.{IsCell, cell_written, bit, booleans_written, plain_written};

use crate::cell_writing::append_cell;
use vs_bytes::{Cell, Leaf, NoMemory, Phys};

fn bit(cell: &Cell) -> u8
    ensures value { result ≡ bit cell.now }
    ensures fits { result < 2 }
{
    match cell {
        Cell::Bool(truth) => u8::from(*truth),
        _ => 0,
    }
}

// At most eight truth values, the first one in the lowest bit.
fn byte_of(cells: &[Cell]) -> u8
    requires { length cells.now ≤ 8 }
    ensures { result ≡ packed 1 (map bit cells.now) }
{
    let mut byte = 0;
    let mut i = cells.len();
    while i > 0 {
        i -= 1;
        byte = 2 * byte + bit(&cells[i]);
    }
    byte
}

#[tactic(auto, using(vs_bytes::proofs::Growing::grows_on), unfolding(crate::specs::Written::booleans_written))]
fn append_booleans(into: &mut Vec<u8>, cells: &[Cell]) -> Result<(), NoMemory>
    ensures ok { OnOk result (into.new.items ≡ into.old.items ++ booleans_written cells.now) }
    ensures grows { Grows into.old.items into.new.items }
{
    for i in 0..cells.len().div_ceil(8) {
        let end = (8 * i + 8).min(cells.len());
        into.push(byte_of(&cells[8 * i..end]))?;
    }
    Ok(())
}

// It is put in line where the type is known, so that each type has a loop of its own.
#[inline(always)]
#[tactic(auto, using(vs_bytes::proofs::Growing::grows_on))]
fn append_cells(into: &mut Vec<u8>, leaf: &Leaf, cells: &[Cell]) -> Result<(), NoMemory>
    requires { All (λ c. IsCell leaf.now.phys leaf.now.prim c) cells.now }
    ensures ok { OnOk result (into.new.items ≡ into.old.items ++ flat_map (cell_written leaf.now.phys) cells.now) }
    ensures grows { Grows into.old.items into.new.items }
{
    for cell in cells {
        append_cell(into, leaf, cell)?;
    }
    Ok(())
}

/// Appends the bytes of cells. After an `Err` some of them may be there.
///
/// For a caller that cuts its output back by itself.
pub fn append(into: &mut Vec<u8>, leaf: &Leaf, cells: &[Cell]) -> Result<(), NoMemory>
    requires { All (λ c. IsCell leaf.now.phys leaf.now.prim c) cells.now }
    ensures ok { OnOk result (into.new.items ≡ into.old.items ++ plain_written leaf.now.phys cells.now) }
    ensures grows { Grows into.old.items into.new.items }
{
    match leaf.phys {
        Phys::Boolean => append_booleans(into, cells),
        Phys::Int32 => append_cells(into, &leaf.of_type(Phys::Int32), cells),
        Phys::Int64 => append_cells(into, &leaf.of_type(Phys::Int64), cells),
        _ => append_cells(into, leaf, cells),
    }
}

/// Appends the bytes of cells. After an `Err` the bytes are as before.
pub fn encode(into: &mut Vec<u8>, leaf: &Leaf, cells: &[Cell]) -> Result<(), NoMemory>
    requires { All (λ c. IsCell leaf.now.phys leaf.now.prim c) cells.now }
    ensures ok { OnOk result (into.new.items ≡ into.old.items ++ plain_written leaf.now.phys cells.now) }
    ensures err { OnErr result (into.new.items ≡ into.old.items) }
{
    let before = into.len();
    let done = append(into, leaf, cells);
    if done.is_err() {
        into.truncate(before);
    }
    done
}
