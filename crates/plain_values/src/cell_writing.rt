//! The bytes of one cell.

ghost use Rattle.std.specs.Prelude.{◌≡◌, ◌≤◌, ◌++◌, ℤ, length, OnOk};
ghost use Rattle.exact_num.specs.Unscaled.{FitsBytes, little_integer_bytes};
ghost use Rattle.vs_bytes.specs.Outcome.{Grows};
ghost use Rattle.vs_bytes.specs.declared.leaf_columns.Cell.TheVariants as cell;
ghost use Rattle.plain_values.specs.Written.{HoldsNumber, IsDecimal, IsShort, IsFixed, IsArray, IsCell, number_written, decimal_written, array_written, cell_written};

use byteorder::{BigEndian, ByteOrder};
use exact_num::Unscaled;
use vs_bytes::{Cell, Le, Leaf, NoMemory, Phys, Prim};

fn append_int32(into: &mut Vec<u8>, cell: &Cell) -> Result<(), NoMemory>
    requires { HoldsNumber (FitsBytes 4) cell.now }
    ensures ok { OnOk result (into.new.items ≡ into.old.items ++ number_written (little_integer_bytes 4) cell.now) }
    ensures grows { Grows into.old.items into.new.items }
{
    match cell {
        Cell::Num(number) => Unscaled::<4>::write_little(into, *number),
        _ => Ok(()),
    }
}

fn append_int64(into: &mut Vec<u8>, cell: &Cell) -> Result<(), NoMemory>
    requires { HoldsNumber (FitsBytes 8) cell.now }
    ensures ok { OnOk result (into.new.items ≡ into.old.items ++ number_written (little_integer_bytes 8) cell.now) }
    ensures grows { Grows into.old.items into.new.items }
{
    match cell {
        Cell::Num(number) => Unscaled::<8>::write_little(into, *number),
        _ => Ok(()),
    }
}

// For a count of bytes that only the run knows.
fn append_big(into: &mut Vec<u8>, size: usize, number: i128) -> Result<(), NoMemory>
    requires least { 1 ≤ size }
    requires most { size ≤ 16 }
    requires fits { FitsBytes size number }
    ensures ok { OnOk result (into.new.items ≡ into.old.items ++ decimal_written size number) }
    ensures grows { Grows into.old.items into.new.items }
{
    let mut bytes = [0u8; 16];
    BigEndian::write_int128(&mut bytes, number, size);
    into.extend_from_slice(&bytes[..size])?;
    Ok(())
}

fn append_fixed(into: &mut Vec<u8>, size: usize, cell: &Cell) -> Result<(), NoMemory>
    requires { IsFixed size cell.now }
    ensures ok { OnOk result (into.new.items ≡ into.old.items ++ number_written (decimal_written size) cell.now) }
    ensures grows { Grows into.old.items into.new.items }
{
    match cell {
        Cell::Num(number) => append_big(into, size, *number),
        _ => Ok(()),
    }
}

#[tactic(auto, using(crate::proofs::Sizes::decimal_fits), unfolding(crate::specs::Written::array_written))]
fn append_decimal(into: &mut Vec<u8>, number: i128) -> Result<(), NoMemory>
    requires { IsDecimal number }
    ensures ok { OnOk result (into.new.items ≡ into.old.items ++ array_written (cell.Num number)) }
    ensures grows { Grows into.old.items into.new.items }
{
    Le::<4>::write(into, 16)?;
    append_big(into, 16, number)
}

#[inline(always)]
#[tactic(auto, unfolding(crate::specs::Written::array_written))]
fn append_bytes(into: &mut Vec<u8>, bytes: &[u8]) -> Result<(), NoMemory>
    requires { IsShort bytes.now }
    ensures ok { OnOk result (into.new.items ≡ into.old.items ++ array_written (cell.Bytes bytes.now)) }
    ensures grows { Grows into.old.items into.new.items }
{
    Le::<4>::write(into, bytes.len() as u32)?;
    into.extend_from_slice(bytes)?;
    Ok(())
}

#[inline(always)]
#[tactic(auto, using(crate::proofs::Sizes::array_decimal, crate::proofs::Sizes::array_short), unfolding(crate::specs::Written::array_written))]
fn append_array(into: &mut Vec<u8>, kind: Prim, cell: &Cell) -> Result<(), NoMemory>
    requires { IsArray kind cell.now }
    ensures ok { OnOk result (into.new.items ≡ into.old.items ++ array_written cell.now) }
    ensures grows { Grows into.old.items into.new.items }
{
    match cell {
        Cell::Bool(_) => Ok(()),
        Cell::Num(number) => append_decimal(into, *number),
        Cell::Bytes(bytes) => append_bytes(into, bytes.as_slice()),
    }
}

/// Appends the bytes of one cell of a leaf column of any type but BOOLEAN. After an `Err` some of them may be
/// there.
///
/// For a caller that holds its cells apart.
#[inline(always)]
pub fn append_cell(into: &mut Vec<u8>, leaf: &Leaf, cell: &Cell) -> Result<(), NoMemory>
    requires { IsCell leaf.now.phys leaf.now.prim cell.now }
    ensures ok { OnOk result (into.new.items ≡ into.old.items ++ cell_written leaf.now.phys cell.now) }
    ensures grows { Grows into.old.items into.new.items }
{
    match leaf.phys {
        Phys::Boolean => Ok(()),
        Phys::Int32 => append_int32(into, cell),
        Phys::Int64 => append_int64(into, cell),
        Phys::Fixed(size) => append_fixed(into, size as usize, cell),
        _ => append_array(into, leaf.prim, cell),
    }
}
