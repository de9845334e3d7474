//! Files by name, and what a call leaves as text.

use file_answers::FileError;
use outside::MemSink;
use shelf::MemShelf;
use std::alloc::{AllocError, Global};
use store_file::{Place, Violation};
use test_rows::{Wrong, bytes_of};
use vs_bytes::{NoMemory, Sequence, Text};

// A file without groups: the footer of 82 bytes tells of the root with one child, the optional group `doc` with its
// annotation and two children, and the required leaves `metadata` and `value`; of 0 rows, no groups, and the orders.
const EMPTY: &str =
    "50415231 1502194c4806736368656d61150200 350218 03646f63 1504 5c0c2013 01000000 150c2500 18086d6574616461746100 150c2500 180576616c756500 1600 190c 2808 7673746f72652031 192c1c00001c00 0000 52000000 50415231";

// A file of one group with two rows, of which the first is absent and the second is null.
//
// The chunk of the metadata has 30 bytes from 4 on: a page of the definition levels 0 and 1, and metadata without names.
// The chunk of the values has 28 bytes from 34 on: the same levels, and the one byte of null.
// The footer of 158 bytes follows at 62. Its group tells of 58 bytes and 2 rows, and of both chunks: BYTE_ARRAY (6), the
// encodings PLAIN (0) and RLE (3), the path, the codec 0, 2 values, the size twice, the place.
const TWO_ROWS: &str =
    "50415231 1500151a151a 2c15041500150615060000 020000000302 03000000110000 150015161516 2c15041500150615060000 020000000302 0100000000 1502194c4806736368656d61150200 350218 03646f63 1504 5c0c2013 01000000 150c2500 18086d6574616461746100 150c2500 180576616c756500 1604 191c 192c 26001c 150c 19250006 192803646f63086d65746164617461 1500 1604 163c 163c 2608 0000 26001c 150c 19250006 192803646f630576616c7565 1500 1604 1638 1638 2644 0000 1674 1604 00 2808 7673746f72652031 192c1c00001c00 0000 9e000000 50415231";

// The same, where the chunk of the values has the codec 1.
const OTHER_CODEC: &str =
    "50415231 1500151a151a 2c15041500150615060000 020000000302 03000000110000 150015161516 2c15041500150615060000 020000000302 0100000000 1502194c4806736368656d61150200 350218 03646f63 1504 5c0c2013 01000000 150c2500 18086d6574616461746100 150c2500 180576616c756500 1604 191c 192c 26001c 150c 19250006 192803646f63086d65746164617461 1500 1604 163c 163c 2608 0000 26001c 150c 19250006 192803646f630576616c7565 1502 1604 1638 1638 2644 0000 1674 1604 00 2808 7673746f72652031 192c1c00001c00 0000 9e000000 50415231";

// The same, where the value is a text of 1 byte, which doesn't follow.
const SHORT_VALUE: &str =
    "50415231 1500151a151a 2c15041500150615060000 020000000302 03000000110000 150015161516 2c15041500150615060000 020000000302 0100000005 1502194c4806736368656d61150200 350218 03646f63 1504 5c0c2013 01000000 150c2500 18086d6574616461746100 150c2500 180576616c756500 1604 191c 192c 26001c 150c 19250006 192803646f63086d65746164617461 1500 1604 163c 163c 2608 0000 26001c 150c 19250006 192803646f630576616c7565 1500 1604 1638 1638 2644 0000 1674 1604 00 2808 7673746f72652031 192c1c00001c00 0000 9e000000 50415231";

fn digits_of(name: &str) -> &str {
    if name == "empty" {
        EMPTY
    } else if name == "two" {
        TWO_ROWS
    } else if name == "codec" {
        OTHER_CODEC
    } else if name == "short" {
        SHORT_VALUE
    } else {
        "504152"
    }
}

// A shelf in memory with one of the files. One of its calls fails.
pub fn shelf_with(alloc: Global, name: &str, failing: u32) -> Result<MemShelf, NoMemory> {
    let failing = Vec::from_slice(alloc, &[u64::from(failing)])?;
    let mut shelf = MemShelf::new(alloc, failing);
    let bytes = bytes_of(alloc, digits_of(name))?;
    shelf.put(Text::from_str(alloc, name)?, bytes)?;
    Ok(shelf)
}

// The words of a row: one space stands between two of them.
pub fn words_of(alloc: Global, given: &str) -> Result<Sequence<Text>, NoMemory> {
    let mut words = Sequence::new(alloc);
    for word in given.split(' ') {
        words.push(Text::from_str(alloc, word)?)?;
    }
    Ok(words)
}

fn place_text(alloc: Global, violation: &Violation) -> Result<String, AllocError> {
    let rule = violation.rule.name();
    match violation.place {
        Place::File => rule.to_string(alloc),
        Place::Chunk(group, leaf) => format!(in alloc; "{rule} group {group} leaf {leaf}"),
        Place::Row(group, row) => format!(in alloc; "{rule} group {group} row {row}"),
    }
}

fn done_text(alloc: Global, done: &Result<(), FileError>) -> Result<String, AllocError> {
    match done {
        Ok(()) => "done".to_string(alloc),
        Err(FileError::Absent) => "absent".to_string(alloc),
        Err(FileError::Violated(violation)) => place_text(alloc, violation),
        Err(FileError::ReadFault) => "read fault".to_string(alloc),
        Err(FileError::WriteFault) => "write fault".to_string(alloc),
        Err(FileError::NoMemory) => "no memory".to_string(alloc),
    }
}

// The lines that were printed, with a space for each LF.
fn lines_text(alloc: Global, out: &MemSink) -> Result<String, AllocError> {
    let mut text = String::new(alloc);
    if let Ok(lines) = std::str::from_utf8(out.bytes()) {
        for line in lines.split('\n') {
            text.push_str(line)?;
            text.push_str(" ")?;
        }
    }
    Ok(text)
}

// How a call ended, what was printed, and the ranges that were asked for.
pub fn shown_of(
    alloc: Global,
    done: &Result<(), FileError>,
    shelf: &MemShelf,
    out: &MemSink,
) -> Result<String, Wrong> {
    let mut text = done_text(alloc, done)?;
    text.push_str(": ")?;
    text.push_str(lines_text(alloc, out)?.as_str())?;
    for k in 0..shelf.touched_len() {
        let (_name, at, size) = shelf.touched_at(k);
        let next = format!(in alloc; "({at} {size})")?;
        text.push_str(next.as_str())?;
    }
    Ok(text)
}
