//! The column of a name in the metadata of a file.

use footer_structs::read_footer;
use std::alloc::{AllocError, Global};
use std::test::Fail;
use test_rows::{Shown, Wrong, bytes_of, check_rows, split_row, text_or_rule};
use thrift_footer::{FileColumn, column};
use vs_bytes::Refusal;

// The place of each leaf, and whether its bounds are in the order of its type.
fn column_text(alloc: Global, found: &FileColumn) -> Result<String, AllocError> {
    let mut text = String::new(alloc);
    for place in found.places.as_slice() {
        let next = format!(in alloc; "{place} ")?;
        text.push_str(next.as_str())?;
    }
    for ordered in found.ordered.as_slice() {
        let next = format!(in alloc; "{ordered} ")?;
        text.push_str(next.as_str())?;
    }
    text.push_str("end")?;
    Ok(text)
}

fn found(alloc: Global, name: &str, bytes: &[u8]) -> Result<String, Refusal> {
    let meta = read_footer(alloc, bytes)?;
    let found = column(alloc, &meta, name)?;
    Ok(column_text(alloc, &found)?)
}

// A row gives a name, and the bytes of a footer.
struct Columns;

impl Shown for Columns {
    fn shown(alloc: Global, given: &str) -> Result<String, Wrong> {
        let (name, digits) = split_row(alloc, given)?;
        let bytes = bytes_of(alloc, digits)?;
        text_or_rule(alloc, found(alloc, name, &bytes))
    }
}

// A column whose leaves have their orders; one whose second leaf has another order; one in a file without orders; a name
// that isn't there; a leaf, which is no column.
const COLUMNS: &str =
    "doc | 1502194c4806736368656d61150200 35021803646f6315045c0c20130100 0000 150c250018086d6574616461746100 150c2500180576616c756500 1600190c 39 2c 1c0000 1c0000 00 | 0 1 true true end
doc | 1502194c4806736368656d61150200 35021803646f6315045c0c20130100 0000 150c250018086d6574616461746100 150c2500180576616c756500 1600190c 39 2c 1c0000 00 00 | 0 1 true false end
doc | 1502194c4806736368656d61150200 35021803646f6315045c0c20130100 0000 150c250018086d6574616461746100 150c2500180576616c756500 1600190c 00 | 0 1 false false end
dog | 1502194c4806736368656d61150200 35021803646f6315045c0c20130100 0000 150c250018086d6574616461746100 150c2500180576616c756500 1600190c 00 | NoVariant
a | 1502 192c 4801721502 00 150238016100 1600190c 00 | SchemaShape";

#[test]
fn columns_of_footers(rt: HostRuntime) -> Result<(), Fail> {
    check_rows::<Columns>(rt.alloc(), COLUMNS)?;
    Ok(())
}
