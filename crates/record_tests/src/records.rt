//! Trees and records as text. Of a record: the value, a colon and the typed part. Bytes are in hex digits, and `-` is what isn't there.

use json_tree::{Tree, print};
use shred_schema::{Part, Record, RowRecord};
use std::alloc::Global;
use test_rows::{Wrong, cell_text, hex_text};
use vs_bytes::{Bytes, Cell, Refusal, Refused};

fn put_value(into: &mut String, alloc: Global, value: &Option<Bytes>) -> Result<(), Wrong> {
    match value {
        Some(bytes) => into.push_str(hex_text(alloc, bytes.as_slice())?.as_str())?,
        None => into.push_str("-")?,
    }
    Ok(())
}

fn put_cell(into: &mut String, alloc: Global, cell: &Cell) -> Result<(), Wrong> {
    into.push_str(cell_text(alloc, cell)?.as_str())?;
    Ok(())
}

#[cycle(text)]
fn put_record(into: &mut String, alloc: Global, record_in: &Record) -> Result<(), Wrong> {
    put_value(into, alloc, &record_in.value)?;
    into.push_str(":")?;
    match &record_in.typed {
        None => into.push_str("-")?,
        Some(part) => put_part(into, alloc, part)?,
    }
    Ok(())
}

#[cycle(text)]
fn put_part(into: &mut String, alloc: Global, part: &Part) -> Result<(), Wrong> {
    match part {
        Part::Cell(cell) => put_cell(into, alloc, cell),
        Part::Fields(records) => {
            into.push_str("{")?;
            put_records(into, alloc, records.as_slice())?;
            into.push_str("}")?;
            Ok(())
        }
        Part::Items(records) => {
            into.push_str("[")?;
            put_records(into, alloc, records.as_slice())?;
            into.push_str("]")?;
            Ok(())
        }
    }
}

// Records, with a space after each.
#[cycle(text)]
fn put_records(into: &mut String, alloc: Global, records: &[Record]) -> Result<(), Wrong> {
    for record_in in records {
        put_record(into, alloc, record_in)?;
        into.push_str(" ")?;
    }
    Ok(())
}

/// The metadata of a row, a space, and its record.
pub(crate) fn row_text(alloc: Global, row: &RowRecord) -> Result<String, Wrong> {
    let mut text = String::new(alloc);
    match row {
        RowRecord::Absent => text.push_str("absent")?,
        RowRecord::Present { meta, rec } => {
            text.push_str(hex_text(alloc, meta.as_slice())?.as_str())?;
            text.push_str(" ")?;
            put_record(&mut text, alloc, rec)?;
        }
    }
    Ok(text)
}

/// The canonical text of a row, or the rule that it violates.
pub(crate) fn tree_text(
    alloc: Global,
    found: Result<Option<Tree>, Refusal>,
) -> Result<String, Wrong> {
    match found {
        Ok(Some(tree)) => {
            let mut text = Vec::new(alloc);
            print(&mut text, &tree)?;
            match std::str::from_utf8(text.as_slice()) {
                Ok(text) => Ok(text.to_string(alloc)?),
                Err(_) => Ok("no text".to_string(alloc)?),
            }
        }
        Ok(None) => Ok("absent".to_string(alloc)?),
        Err(Refused::Fault(rule)) => Ok(rule.name().to_string(alloc)?),
        Err(Refused::NoMemory) => Err(Wrong::NoMemory),
    }
}
