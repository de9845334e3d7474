//! Entries that come in pieces, taken in order.

use column_assembly::Cursor;
use std::alloc::Global;
use std::process::Abort;
use std::test::Fail;
use vs_bytes::{Cell, Entry, NoMemory, Sequence};

// One more row: an integer at definition level 1.
fn feed_row(alloc: Global, cursor: &mut Cursor, number: i128) -> Result<(), NoMemory> {
    let mut entries = Sequence::new(alloc);
    entries.push(Entry {
        rep: 0,
        def: 1,
        value: Some(Cell::Num(number)),
    })?;
    cursor.feed(alloc, &mut entries)
}

// The number of the next row, or 0.
fn next_number(cursor: &mut Cursor) -> i128 {
    match cursor.take_cell(0, 0, 1) {
        Some(Cell::Num(number)) => number,
        _ => 0,
    }
}

#[test]
fn a_row_is_whole_when_the_next_one_begins(rt: HostRuntime) -> Result<(), Fail> {
    let mut cursor = Cursor::new(rt.alloc());
    feed_row(rt.alloc(), &mut cursor, 5)?;
    assert!(&rt; !cursor.is_whole(false));
    feed_row(rt.alloc(), &mut cursor, 7)?;
    assert!(&rt; cursor.is_whole(false));
    assert_eq!(&rt; next_number(&mut cursor), 5);
    assert!(&rt; !cursor.is_whole(false));
    assert!(&rt; cursor.is_whole(true));
    Ok(())
}

#[test]
fn pieces_are_taken_in_their_order(rt: HostRuntime) -> Result<(), Fail> {
    let mut cursor = Cursor::new(rt.alloc());
    feed_row(rt.alloc(), &mut cursor, 5)?;
    feed_row(rt.alloc(), &mut cursor, 7)?;
    assert_eq!(&rt; next_number(&mut cursor), 5);
    assert_eq!(&rt; next_number(&mut cursor), 7);
    assert_eq!(&rt; next_number(&mut cursor), 0);
    Ok(())
}
