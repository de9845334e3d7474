//! Entries that are written as text: the repetition level, the definition level and the value, if there is one, with
//! commas between them. A value is hex digits, or a number after `#`.

use std::alloc::Global;
use test_rows::{Wrong, bytes_of, number_of};
use vs_bytes::{Bytes, Cell, Entry, EntryList};

fn level_of(alloc: Global, text: &str) -> Result<u16, Wrong> {
    Ok(number_of(alloc, text)?.min(65_535) as u16)
}

fn cell_of(alloc: Global, text: &str) -> Result<Cell, Wrong> {
    match text.strip_prefix("#") {
        Some(digits) => Ok(Cell::Num(i128::from(number_of(alloc, digits)?))),
        None => Ok(Cell::Bytes(Bytes::from_vec(bytes_of(alloc, text)?)?)),
    }
}

fn value_of(alloc: Global, text: Option<&str>) -> Result<Option<Cell>, Wrong> {
    match text {
        Some(cell) => Ok(Some(cell_of(alloc, cell)?)),
        None => Ok(None),
    }
}

// The levels of an entry, and its value.
fn split_entry<'a>(
    alloc: Global,
    text: &'a str,
) -> Result<(&'a str, &'a str, Option<&'a str>), Wrong> {
    let Some((rep, others)) = text.split_once(",") else {
        return Err(Wrong::Parts(text.to_string(alloc)?));
    };
    match others.split_once(",") {
        Some((def, cell)) => Ok((rep, def, Some(cell))),
        None => Ok((rep, others, None)),
    }
}

/// Puts the entry that is written into a list.
pub(crate) fn push_entry(alloc: Global, list: &mut EntryList, text: &str) -> Result<(), Wrong> {
    let (rep, def, cell) = split_entry(alloc, text)?;
    let entry = Entry {
        rep: level_of(alloc, rep)?,
        def: level_of(alloc, def)?,
        value: value_of(alloc, cell)?,
    };
    list.push(entry)?;
    Ok(())
}
