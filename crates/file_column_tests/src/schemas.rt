//! Schemas made of rows.

use file_columns::{FileColumn, column};
use schema_elements::{ElementList, SchemaElement};
use std::alloc::Global;
use vs_bytes::{NoMemory, Refused, Rule, Sequence, Text};

/// An element: its repetition, its name, its type or -1, how many elements are in it, its converted type or -1.
pub(crate) type Row<'a> = (i32, &'a str, i32, i32, i32);

fn number(field: i32) -> Option<i32> {
    if field < 0 { None } else { Some(field) }
}

pub(crate) fn put(alloc: Global, into: &mut ElementList, row: &Row<'_>) -> Result<(), NoMemory> {
    into.push(SchemaElement {
        kind: number(row.2),
        type_length: None,
        repetition_type: number(row.0),
        name: Text::from_str(alloc, row.1)?,
        num_children: Some(row.3),
        converted_type: number(row.4),
        scale: None,
        precision: None,
        logical_type: None,
    })
}

pub(crate) fn schema(alloc: Global, rows: &[Row<'_>]) -> Result<ElementList, NoMemory> {
    let mut list = Sequence::new(alloc);
    for row in rows {
        put(alloc, &mut list, row)?;
    }
    Ok(list)
}

/// The column `v` of a schema.
pub(crate) fn read(alloc: Global, list: &ElementList) -> Result<FileColumn, Refused<Rule>> {
    column(alloc, list.as_slice(), "v", &[])
}

/// Whether a schema is refused for this rule.
pub(crate) fn is_refused(alloc: Global, list: &ElementList, rule: Rule) -> bool {
    match read(alloc, list) {
        Err(Refused::Fault(other)) => other == rule,
        _ => false,
    }
}

/// Whether the schema of these rows is refused for its shape.
pub(crate) fn is_misshaped(alloc: Global, rows: &[Row<'_>]) -> bool {
    match schema(alloc, rows) {
        Ok(list) => is_refused(alloc, &list, Rule::SchemaShape),
        Err(NoMemory) => false,
    }
}
