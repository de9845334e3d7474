//! Leaf columns by name, and what they hold as text.

use crate::parts::hex_text;
use std::alloc::{AllocError, Global};
use vs_bytes::{Cell, Entry, Leaf, Phys, Prim};

/// The column of a name that has no levels: a physical type, and for what its cells stand. Any other name has bytes.
pub fn column_of(name: &str) -> Leaf {
    let (phys, prim) = match name {
        "boolean" => (Phys::Boolean, Prim::Boolean),
        "int32" => (Phys::Int32, Prim::Int32),
        "int64" => (Phys::Int64, Prim::Int64),
        "text" => (Phys::ByteArray, Prim::Text),
        "decimal" => (Phys::ByteArray, Prim::Decimal { p: 38, s: 0 }),
        "fixed 0" => (Phys::Fixed(0), Prim::Decimal { p: 38, s: 0 }),
        "fixed 2" => (Phys::Fixed(2), Prim::Decimal { p: 4, s: 2 }),
        "fixed 16" => (Phys::Fixed(16), Prim::Decimal { p: 38, s: 0 }),
        "fixed 17" => (Phys::Fixed(17), Prim::Decimal { p: 38, s: 0 }),
        _ => (Phys::ByteArray, Prim::Raw),
    };
    Leaf {
        rep: 0,
        def: 0,
        phys,
        prim,
    }
}

/// A cell: a word, a number, or hex digits.
pub fn cell_text(alloc: Global, cell: &Cell) -> Result<String, AllocError> {
    match cell {
        Cell::Bool(truth) => format!(in alloc; "{truth}"),
        Cell::Num(number) => format!(in alloc; "{number}"),
        Cell::Bytes(bytes) => hex_text(alloc, bytes.as_slice()),
    }
}

fn value_text(alloc: Global, value: &Option<Cell>) -> Result<String, AllocError> {
    match value {
        Some(cell) => cell_text(alloc, cell),
        None => "none".to_string(alloc),
    }
}

/// Entries: the repetition level, the definition level and the value of each.
pub fn entries_text(alloc: Global, entries: &[Entry]) -> Result<String, AllocError> {
    let mut text = String::new(alloc);
    for entry in entries {
        let value = value_text(alloc, &entry.value)?;
        let next = format!(in alloc; "({}, {}, {value}) ", entry.rep, entry.def)?;
        text.push_str(next.as_str())?;
    }
    text.push_str("end")?;
    Ok(text)
}
