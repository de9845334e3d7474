//! What stands in a column for a document.

use sqlite_items::Items;
use vs_bytes::{Bytes, Cell, Sequence};

/// What stands in a node for a value: neither part where there is none.
#[cycle(record)]
#[derive(Drop)]
pub struct Record {
    /// What the typed part doesn't hold, as Variant bytes.
    pub value: Option<Bytes>,
    /// What the typed part holds.
    pub typed: Option<Part>,
}

/// Records in order.
pub type RecordList = Items<Record>;

/// What stands in the typed part of a node.
#[cycle(record)]
#[derive(Drop)]
pub enum Part {
    /// A cell of its leaf column.
    Cell(Cell),
    /// A record for each field, in the order of the fields.
    Fields(RecordList),
    /// A record for each item.
    Items(RecordList),
}

/// What stands in a column for a row.
#[derive(Drop)]
pub enum RowRecord {
    /// Nothing: the row has no value, not even null.
    Absent,
    /// A record.
    Present {
        /// The metadata of its Variants.
        meta: Bytes,
        /// The record of the top node.
        rec: Record,
    },
}

/// Row records in order.
pub type RowList = Sequence<RowRecord>;
