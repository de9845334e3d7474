//! PLAIN values.

ghost use Rattle.std.specs.Prelude.{IfOk};
ghost use Rattle.std.specs.List.{All};
ghost use Rattle.plain_values.specs.Written.{IsCell};
ghost use Rattle.column_cost.specs.Columns.{integers, texts};

use crate::numbers::COUNT;
use plain_values::{decode, encode};
use std::alloc::Global;
use vs_bytes::{Bytes, Cell, Leaf, NoMemory, Phys, Prim, Refused};

/// A column of integers of 64 bits, some of them missing.
pub(crate) const INTEGERS: Leaf = Leaf {
    rep: 0,
    def: 1,
    phys: Phys::Int64,
    prim: Prim::Int64,
};

const TEXTS: Leaf = Leaf {
    rep: 0,
    def: 0,
    phys: Phys::ByteArray,
    prim: Prim::Text,
};

#[tactic(auto, using(crate::proofs::Given::integer_more))]
fn integers(alloc: Global) -> Result<Vec<Cell>, NoMemory>
    ensures { IfOk result (λ cells. All (IsCell integers.phys integers.prim) cells.items) }
{
    let mut cells = Vec::with_capacity(alloc, COUNT)?;
    for i in 0..COUNT {
        cells.push(Cell::Num(i as i128))?;
    }
    Ok(cells)
}

#[tactic(auto, using(crate::proofs::Given::text_more))]
fn texts(alloc: Global) -> Result<Vec<Cell>, NoMemory>
    ensures { IfOk result (λ cells. All (IsCell texts.phys texts.prim) cells.items) }
{
    let mut cells = Vec::with_capacity(alloc, COUNT)?;
    for _i in 0..COUNT {
        let text = Bytes::from_slice(alloc, b"abcdefghij")?;
        cells.push(Cell::Bytes(text))?;
    }
    Ok(cells)
}

// Reads a million cells so often. Answers how many were read.
fn read(alloc: Global, leaf: &Leaf, bytes: &[u8], turns: u32) -> Result<usize, NoMemory> {
    let mut count: usize = 0;
    for _turn in 0..turns {
        match decode(alloc, leaf, COUNT, bytes) {
            Ok(cells) => count = count.saturating_add(cells.len()),
            Err(Refused::NoMemory) => return Err(NoMemory),
            Err(Refused::Fault(_)) => {}
        }
    }
    Ok(count)
}

// Writes cells so often. Answers how many were written.
fn write(alloc: Global, leaf: &Leaf, cells: &[Cell], turns: u32) -> Result<usize, NoMemory>
    requires { All (IsCell leaf.now.phys leaf.now.prim) cells.now }
{
    let mut bytes = Vec::new(alloc);
    let mut count: usize = 0;
    for _turn in 0..turns {
        bytes.clear();
        encode(&mut bytes, leaf, cells)?;
        count = count.saturating_add(cells.len());
    }
    Ok(count)
}

pub(crate) fn read_integers(alloc: Global, turns: u32) -> Result<usize, NoMemory> {
    let bytes = Vec::from_elem(alloc, 7u8, 8 * COUNT)?;
    read(alloc, &INTEGERS, &bytes, turns)
}

pub(crate) fn write_integers(alloc: Global, turns: u32) -> Result<usize, NoMemory> {
    let cells = integers(alloc)?;
    write(alloc, &INTEGERS, &cells, turns)
}

/// Texts of 10 bytes.
pub(crate) fn read_texts(alloc: Global, turns: u32) -> Result<usize, NoMemory> {
    let mut bytes = Vec::with_capacity(alloc, 14 * COUNT)?;
    for _i in 0..COUNT {
        bytes.extend_from_slice(b"\x0a\x00\x00\x00abcdefghij")?;
    }
    read(alloc, &TEXTS, &bytes, turns)
}

pub(crate) fn write_texts(alloc: Global, turns: u32) -> Result<usize, NoMemory> {
    let cells = texts(alloc)?;
    write(alloc, &TEXTS, &cells, turns)
}
