//! The cells at the front of bytes.

ghost use Rattle.std.specs.Prelude.{◌≡◌};
ghost use Rattle.vs_bytes.specs.Outcome.{Makes};
ghost use Rattle.vs_bytes.specs.declared.leaf_columns.Phys.TheVariants as phys;
ghost use Rattle.plain_values.specs.Plain.{front_cell, cells, plain_cells};

use crate::booleans::booleans;
use crate::cell_reading::front_cell;
use std::alloc::Global;
use vs_bytes::{Cells, Leaf, Phys, Prim, Refusal, Refused, rest};

// Cells that are read one by one. It is put in line where the type is known, so that each type has a loop of its own.
#[inline(always)]
fn cells(alloc: Global, leaf: &Leaf, count: usize, bytes: &[u8]) -> Result<Cells, Refusal>
    ensures { Makes (λ cells. cells) result (cells (front_cell leaf.now.phys leaf.now.prim) count bytes.now) }
{
    // Most cells take 4 bytes or more. A count that the bytes can't bear asks for no more memory.
    let mut found = match Vec::with_capacity(alloc, count.min(bytes.len() / 4)) {
        Ok(room) => room,
        Err(_) => return Err(Refused::NoMemory),
    };
    let mut left = bytes;
    for _i in 0..count {
        // Room is made first, so that a cell is written where it stays.
        match found.reserve(1) {
            Ok(()) => (),
            Err(_) => return Err(Refused::NoMemory),
        }
        match front_cell(alloc, leaf, left) {
            Ok((cell, used)) => {
                found.push_reserved(cell);
                left = rest(left, used);
            }
            Err(refusal) => return Err(refusal),
        }
    }
    Ok(Cells::from_vec(found))
}

// Texts have a loop of their own too.
fn arrays(alloc: Global, leaf: &Leaf, count: usize, bytes: &[u8]) -> Result<Cells, Refusal>
    requires { leaf.now.phys ≡ phys.ByteArray }
    ensures { Makes (λ cells. cells) result (cells (front_cell leaf.now.phys leaf.now.prim) count bytes.now) }
{
    match leaf.prim {
        Prim::Text => {
            let texts = Leaf {
                phys: Phys::ByteArray,
                prim: Prim::Text,
                ..*leaf
            };
            cells(alloc, &texts, count, bytes)
        }
        _ => {
            let arrays = Leaf {
                phys: Phys::ByteArray,
                ..*leaf
            };
            cells(alloc, &arrays, count, bytes)
        }
    }
}

/// `count` cells of a leaf column from the front of `bytes`. Bytes after them are passed over.
///
/// `PlainShort`: the bytes end before the last cell does. `DecimalDigits`: a decimal in bytes has none, more than
/// 16, or more than 38 digits. `TextUtf8`: a text isn't UTF-8. A cell is judged whole before the next one.
pub fn decode(alloc: Global, leaf: &Leaf, count: usize, bytes: &[u8]) -> Result<Cells, Refusal>
    ensures { Makes (λ cells. cells) result (plain_cells leaf.now.phys leaf.now.prim count bytes.now) }
{
    match leaf.phys {
        Phys::Boolean => booleans(alloc, count, bytes),
        Phys::Int32 => cells(alloc, &leaf.of_type(Phys::Int32), count, bytes),
        Phys::Int64 => cells(alloc, &leaf.of_type(Phys::Int64), count, bytes),
        Phys::ByteArray => arrays(alloc, leaf, count, bytes),
        _ => cells(alloc, leaf, count, bytes),
    }
}
