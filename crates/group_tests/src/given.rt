//! The column of the schema `variant`, and a group of two rows: an absent one, and null.

ghost use Rattle.std.specs.Prelude.{◌≡◌, true, length, map, IfOk};
ghost use Rattle.shred_schema.specs.Views.{group_of, row_rec_of};
ghost use Rattle.group_tests.specs.Given.{variant, two_rows};

use shred_schema::{Column, Node, Record, RowList, RowRecord, Slot, Typed};
use std::alloc::Global;
use vs_bytes::{Bytes, NoMemory};

// The chunk of the metadata: a page of two entries, of which the second has the 3 bytes of metadata without names.
//
// | Bytes | Meaning |
// |---|---|
// | 15 00 15 1a 15 1a | a data page, 13 bytes before and after compression |
// | 2c 15 04 15 00 15 06 15 06 00 00 | 2 values in PLAIN, levels in RLE, and the ends of both structs |
// | 02 00 00 00 03 02 | the definition levels 0 and 1: a bit-packed group in 2 bytes |
// | 03 00 00 00 11 00 00 | the value, after its length |
pub const METADATA: &[u8] = &[
    0x15, 0x00, 0x15, 0x1a, 0x15, 0x1a, 0x2c, 0x15, 0x04, 0x15, 0x00, 0x15, 0x06, 0x15, 0x06, 0x00,
    0x00, 0x02, 0x00, 0x00, 0x00, 0x03, 0x02, 0x03, 0x00, 0x00, 0x00, 0x11, 0x00, 0x00,
];

// The chunk of the values: the same with 11 bytes in its page, and the one byte of null.
pub const VALUES: &[u8] = &[
    0x15, 0x00, 0x15, 0x16, 0x15, 0x16, 0x2c, 0x15, 0x04, 0x15, 0x00, 0x15, 0x06, 0x15, 0x06, 0x00,
    0x00, 0x02, 0x00, 0x00, 0x00, 0x03, 0x02, 0x01, 0x00, 0x00, 0x00, 0x00,
];

pub fn column() -> Column
    ensures optional { result.optional ≡ true }
    ensures node { group_of result.node ≡ variant }
{
    Column {
        optional: true,
        node: Node {
            value: Slot::Required,
            typed: Typed::Free,
        },
    }
}

pub fn rows(alloc: Global) -> Result<RowList, NoMemory>
    ensures { IfOk result (λ rows. map row_rec_of rows ≡ two_rows) }
{
    let mut rows = RowList::new(alloc);
    rows.push(RowRecord::Absent)?;
    rows.push(RowRecord::Present {
        meta: Bytes::from_slice(alloc, &[17, 0, 0])?,
        rec: Record {
            value: Some(Bytes::from_slice(alloc, &[0])?),
            typed: None,
        },
    })?;
    Ok(rows)
}
