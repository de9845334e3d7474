//! Whole footers, read.

use crate::elements::element_text;
use footer_structs::{FileMeta, GroupMeta, read_footer};
use std::alloc::{AllocError, Global};
use std::test::Fail;
use test_rows::{Shown, Wrong, bytes_of, check_rows, hex_text, text_or_rule};
use vs_bytes::{Bytes, Refusal, Sequence};

fn schema_text(alloc: Global, meta: &FileMeta) -> Result<String, AllocError> {
    let mut text = String::new(alloc);
    for element in meta.schema.as_slice() {
        let next = element_text(alloc, element)?;
        text.push_str(next.as_str())?;
        text.push_str("; ")?;
    }
    Ok(text)
}

fn groups_text(alloc: Global, groups: &[GroupMeta]) -> Result<String, AllocError> {
    let mut text = String::new(alloc);
    for group in groups {
        let chunks = group.columns.len();
        let next = format!(in alloc; "({chunks} {} {})", group.total_byte_size, group.num_rows)?;
        text.push_str(next.as_str())?;
    }
    Ok(text)
}

fn author_text(alloc: Global, author: &Option<Bytes>) -> Result<String, AllocError> {
    match author {
        Some(author) => hex_text(alloc, author.as_slice()),
        None => "-".to_string(alloc),
    }
}

fn orders_text(alloc: Global, orders: &Option<Sequence<i32>>) -> Result<String, AllocError> {
    let Some(orders) = orders else {
        return "-".to_string(alloc);
    };
    let mut text = String::new(alloc);
    for order in orders.as_slice() {
        let next = format!(in alloc; "{order}")?;
        text.push_str(next.as_str())?;
    }
    Ok(text)
}

fn file_text(alloc: Global, meta: &FileMeta) -> Result<String, AllocError> {
    let schema = schema_text(alloc, meta)?;
    let groups = groups_text(alloc, meta.row_groups.as_slice())?;
    let author = author_text(alloc, &meta.created_by)?;
    let orders = orders_text(alloc, &meta.column_orders)?;
    format!(in alloc;
        "{} {schema}{} rows {groups} by {author} in {orders}",
        meta.version, meta.num_rows
    )
}

fn found(alloc: Global, bytes: &[u8]) -> Result<String, Refusal> {
    let meta = read_footer(alloc, bytes)?;
    Ok(file_text(alloc, &meta)?)
}

// A row gives the bytes of a footer.
struct Footers;

impl Shown for Footers {
    fn shown(alloc: Global, given: &str) -> Result<String, Wrong> {
        let bytes = bytes_of(alloc, given)?;
        text_or_rule(alloc, found(alloc, &bytes))
    }
}

// A file without rows and with a column of Variants; one leaf and no groups, with bytes after them; two groups of two rows;
// orders, of which the second isn't known; a group with fields 5 to 7; a leaf and a group of FIXED_LEN_BYTE_ARRAY (7).
const GOOD: &str =
    "15 02 19 4c 48 06 73 63 68 65 6d 61 15 02 00 35 02 18 03 64 6f 63 15 04 5c 0c 20 13 01 00 00 00 15 0c 25 00 18 08 6d 65 74 61 64 61 74 61 00 15 0c 25 00 18 05 76 61 6c 75 65 00 16 00 19 0c 28 08 76 73 74 6f 72 65 20 31 19 2c 1c 00 00 1c 00 00 00 | 1 schema - - - 1 - - - -; doc - - 1 2 - - - 16:1:-; metadata 6 - 0 - - - - -; value 6 - 0 - - - - -; 0 rows  by 7673746f72652031 in 11
15 02 19 1c 15 02 38 01 61 00 16 00 19 0c 00 ff ff | 1 a 1 - - - - - - -; 0 rows  by - in -
15 02 19 1c 15 02 38 01 61 00 16 08 19 2c 19 1c 26 08 00 16 10 16 04 00 19 1c 26 08 00 16 10 16 04 00 28 01 ff 00 | 1 a 1 - - - - - - -; 4 rows (1 8 2)(1 8 2) by ff in -
15 02 19 1c 15 02 38 01 61 00 16 00 19 0c 39 2c 1c 00 00 00 00 | 1 a 1 - - - - - - -; 0 rows  by - in 10
15 02 19 1c 15 02 38 01 61 00 16 04 19 1c 19 1c 26 08 00 16 10 16 04 26 08 16 02 14 02 00 00 | 1 a 1 - - - - - - -; 2 rows (1 8 2) by - in -
15 02 19 1c 15 0e 15 06 28 01 61 00 16 00 19 0c 00 | 1 a 7 3 - - - - - -; 0 rows  by - in -
15 02 19 2c 15 0e 38 01 72 15 02 00 15 02 38 01 61 00 16 00 19 0c 00 | 1 r 7 - - 1 - - - -; a 1 - - - - - - -; 0 rows  by - in -";

#[test]
fn footers_are_read(rt: HostRuntime) -> Result<(), Fail> {
    check_rows::<Footers>(rt.alloc(), GOOD)?;
    Ok(())
}

// No field; no version; a version that is an i64, or stands twice; no schema, no number of rows, no groups; a number of
// rows below 0; orders as a list of i32s; an element without a name.
const FIELDS: &str = "00 | FooterField
29 1c 15 02 38 01 61 00 16 00 19 0c 00 | FooterField
16 02 19 1c 15 02 38 01 61 00 16 00 19 0c 00 | FooterField
15 02 05 02 02 19 1c 15 02 38 01 61 00 16 00 19 0c 00 | FooterField
15 02 26 00 19 0c 00 | FooterField
15 02 19 1c 15 02 38 01 61 00 29 0c 00 | FooterField
15 02 19 1c 15 02 38 01 61 00 16 00 00 | FooterField
15 02 19 1c 15 02 38 01 61 00 16 01 19 0c 00 | FooterField
15 02 19 1c 15 02 38 01 61 00 16 00 19 0c 39 15 02 00 | FooterField
15 02 19 1c 15 02 00 16 00 19 0c 00 | FooterField";

#[test]
fn fields_that_are_refused(rt: HostRuntime) -> Result<(), Fail> {
    check_rows::<Footers>(rt.alloc(), FIELDS)?;
    Ok(())
}

// No element; two trees; a group whose children aren't all there, or that has one too many; a leaf of
// FIXED_LEN_BYTE_ARRAY (7) without a length, or with one below 0.
const SCHEMAS: &str = "15 02 19 0c 16 00 19 0c 00 | FooterField
15 02 19 2c 15 02 38 01 61 00 15 02 38 01 62 00 16 00 19 0c 00 | FooterField
15 02 19 2c 48 01 72 15 04 00 15 02 38 01 61 00 16 00 19 0c 00 | FooterField
15 02 19 3c 48 01 72 15 02 00 15 02 38 01 61 00 15 02 38 01 62 00 16 00 19 0c 00 | FooterField
15 02 19 1c 15 0e 38 01 61 00 16 00 19 0c 00 | FooterField
15 02 19 1c 15 0e 15 01 28 01 61 00 16 00 19 0c 00 | FooterField";

#[test]
fn schemas_that_are_refused(rt: HostRuntime) -> Result<(), Fail> {
    check_rows::<Footers>(rt.alloc(), SCHEMAS)?;
    Ok(())
}

// A group without a chunk for the leaf, or with two; with a size or rows below 0; rows that don't add up: three of two,
// two of two groups with two; no chunk and rows that don't add up; rows without groups.
const GROUPS: &str =
    "15 02 19 1c 15 02 38 01 61 00 16 04 19 1c 19 0c 16 10 16 04 00 00 | FooterField
15 02 19 1c 15 02 38 01 61 00 16 04 19 1c 19 2c 26 08 00 26 08 00 16 10 16 04 00 00 | FooterField
15 02 19 1c 15 02 38 01 61 00 16 04 19 1c 19 1c 26 08 00 16 01 16 04 00 00 | FooterField
15 02 19 1c 15 02 38 01 61 00 16 04 19 1c 19 1c 26 08 00 16 10 16 01 00 00 | FooterField
15 02 19 1c 15 02 38 01 61 00 16 06 19 1c 19 1c 26 08 00 16 10 16 04 00 00 | RowCount
15 02 19 1c 15 02 38 01 61 00 16 04 19 2c 19 1c 26 08 00 16 10 16 04 00 19 1c 26 08 00 16 10 16 04 00 00 | RowCount
15 02 19 1c 15 02 38 01 61 00 16 06 19 1c 19 0c 16 10 16 04 00 00 | FooterField
15 02 19 1c 15 02 38 01 61 00 16 02 19 0c 00 | RowCount";

#[test]
fn groups_that_are_refused(rt: HostRuntime) -> Result<(), Fail> {
    check_rows::<Footers>(rt.alloc(), GROUPS)?;
    Ok(())
}

// No bytes; a schema, and groups, of 2^32 - 1 elements in few bytes; a schema of 2^32 - 1 bytes, which is a list of
// another type; a version that stands twice, and no stop; a version that is a list of 2^32 elements.
const PROTOCOL: &str = " | Thrift
15 02 19 fc ff ff ff ff 0f | Thrift
15 02 19 1c 15 02 38 01 61 00 16 00 19 fc ff ff ff ff 0f 00 | Thrift
15 02 19 f3 ff ff ff ff 0f 00 00 | Thrift
15 02 05 02 02 | Thrift
19 f5 80 80 80 80 10 00 | Thrift";

#[test]
fn bytes_that_break_the_protocol(rt: HostRuntime) -> Result<(), Fail> {
    check_rows::<Footers>(rt.alloc(), PROTOCOL)?;
    Ok(())
}
