//! Rows as text: the metadata in hex, and then records. A record stands in brackets: its value in hex, a slash and
//! its typed part, which is a cell, a record for each field in braces, or a record for each item in square brackets. A
//! dash is what isn't there.

use shred_schema::{Part, Record, RowRecord};
use std::alloc::{AllocError, Global};
use test_rows::{cell_text, hex_text};

#[cycle(texts)]
fn push_record(alloc: Global, text: &mut String, found: &Record) -> Result<(), AllocError> {
    text.push_str("(")?;
    match &found.value {
        Some(bytes) => text.push_str(hex_text(alloc, bytes.as_slice())?.as_str())?,
        None => text.push_str("-")?,
    }
    text.push_str("/")?;
    match &found.typed {
        Some(part) => push_part(alloc, text, part)?,
        None => text.push_str("-")?,
    }
    text.push_str(")")
}

#[cycle(texts)]
fn push_part(alloc: Global, text: &mut String, part: &Part) -> Result<(), AllocError> {
    match part {
        Part::Cell(cell) => text.push_str(cell_text(alloc, cell)?.as_str()),
        Part::Fields(records) => {
            text.push_str("{")?;
            push_records(alloc, text, records.as_slice())?;
            text.push_str("}")
        }
        Part::Items(records) => {
            text.push_str("[")?;
            push_records(alloc, text, records.as_slice())?;
            text.push_str("]")
        }
    }
}

#[cycle(texts)]
fn push_records(alloc: Global, text: &mut String, records: &[Record]) -> Result<(), AllocError> {
    for found in records {
        push_record(alloc, text, found)?;
    }
    Ok(())
}

/// Puts a row after others.
pub(crate) fn push_row(
    alloc: Global,
    text: &mut String,
    row: &RowRecord,
) -> Result<(), AllocError> {
    match row {
        RowRecord::Absent => text.push_str("absent ")?,
        RowRecord::Present { meta, rec } => {
            text.push_str(hex_text(alloc, meta.as_slice())?.as_str())?;
            push_record(alloc, text, rec)?;
            text.push_str(" ")?;
        }
    }
    Ok(())
}
