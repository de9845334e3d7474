//! Pages and column chunks.

use chunks::{ChunkEntries, ChunkReader};
use pages::{read_page, write_page};
use std::alloc::Global;
use std::process::Abort;
use std::test::Fail;
use test_rows::{
    Shown, Wrong, bytes_of, check_rows, column_of, entries_text, number_of, split_row, text_or_rule,
};
use thrift_compact::read_page_header;
use vs_bytes::{Bytes, Cell, Entry, Leaf, NoMemory, Phys, Prim, Refusal, rest};

// The column of a name and of its maximum levels.
fn leaf_of(alloc: Global, name: &str, rep: &str, def: &str) -> Result<Leaf, Wrong> {
    let column = column_of(name);
    Ok(Leaf {
        rep: number_of(alloc, rep)?.min(65_535) as u16,
        def: number_of(alloc, def)?.min(65_535) as u16,
        phys: column.phys,
        prim: column.prim,
    })
}

// The next entries of a chunk, so many, one by one.
fn taken(alloc: Global, chunk: &mut ChunkEntries, count: u32) -> Result<Vec<Entry>, NoMemory> {
    let mut found = Vec::new(alloc);
    for _turn in 0..count {
        let mut piece = chunk.take(alloc, 1)?.into_vec();
        found.append(&mut piece)?;
    }
    Ok(found)
}

fn entries_found(
    alloc: Global,
    leaf: Leaf,
    values: u32,
    bytes: Vec<u8>,
) -> Result<String, Refusal> {
    let reader = ChunkReader::new(Bytes::from_vec(bytes)?, leaf, u64::from(values));
    let mut chunk = reader.into_entries(alloc)?;
    let entries = taken(alloc, &mut chunk, values)?;
    Ok(entries_text(alloc, &entries)?)
}

// A row gives a column, its maximum repetition level and definition level, how many entries a chunk has by its
// metadata, and its bytes. It shows the entries.
struct Chunks;

impl Shown for Chunks {
    fn shown(alloc: Global, given: &str) -> Result<String, Wrong> {
        let (name, others) = split_row(alloc, given)?;
        let (rep, others) = split_row(alloc, others)?;
        let (def, others) = split_row(alloc, others)?;
        let (values, digits) = split_row(alloc, others)?;
        let leaf = leaf_of(alloc, name, rep, def)?;
        let values = number_of(alloc, values)?;
        let bytes = bytes_of(alloc, digits)?;
        text_or_rule(alloc, entries_found(alloc, leaf, values, bytes))
    }
}

// One value; a null and a value; a list of two items, an empty list and a list of one item; truth values; two pages
// of texts. Pages without entries, and index pages, which are passed over. Bytes after the last value are too.
const ENTRIES: &str =
    "int64 | 0 | 3 | 1 | 15 00 15 1e 15 1e 2c 15 02 15 00 15 06 15 06 00 00 03 00 00 00 03 03 00 09 00 00 00 00 00 00 00 | (0, 3, 9) end
int32 | 0 | 1 | 2 | 15 00 15 14 15 14 2c 15 04 15 00 15 06 15 06 00 00 02 00 00 00 03 02 05 00 00 00 | (0, 0, none) (0, 1, 5) end
int32 | 1 | 2 | 4 | 15 00 15 32 15 32 2c 15 08 15 00 15 06 15 06 00 00 02 00 00 00 03 02 03 00 00 00 03 9a 00 01 00 00 00 02 00 00 00 03 00 00 00 | (0, 2, 1) (1, 2, 2) (0, 1, none) (0, 2, 3) end
boolean | 0 | 0 | 3 | 15 00 15 02 15 02 2c 15 06 15 00 15 06 15 06 00 00 05 | (0, 0, true) (0, 0, false) (0, 0, true) end
text | 0 | 0 | 2 | 15 00 15 0a 15 0a 2c 15 02 15 00 15 06 15 06 00 00 01 00 00 00 61 15 00 15 0a 15 0a 2c 15 02 15 00 15 06 15 06 00 00 01 00 00 00 62 | (0, 0, 61) (0, 0, 62) end
int32 | 0 | 0 | 0 |  | end
int32 | 0 | 0 | 0 | 15 00 15 00 15 00 2c 15 00 15 00 15 06 15 06 00 00 | end
int32 | 1 | 1 | 0 | 15 00 15 10 15 10 2c 15 00 15 00 15 06 15 06 00 00 00 00 00 00 00 00 00 00 | end
int32 | 0 | 0 | 0 | 15 02 15 00 15 00 00 15 02 15 02 15 02 00 ff | end
int32 | 0 | 0 | 1 | 15 02 15 02 15 02 00 ff 15 00 15 0a 15 0a 2c 15 02 15 00 15 06 15 06 00 00 05 00 00 00 ff | (0, 0, 5) end
int32 | 0 | 0 | 1 | 15 00 15 00 15 08 2c 15 02 15 00 15 08 15 08 00 00 05 00 00 00 | (0, 0, 5) end";

#[test]
fn chunks_have_entries(rt: HostRuntime) -> Result<(), Fail> {
    check_rows::<Chunks>(rt.alloc(), ENTRIES)?;
    Ok(())
}

// Headers that end early, and bodies past the end. Then dictionary pages, data pages of the second form, and a type
// that there isn't, also ahead of an encoding that isn't read. Then values in a dictionary (2, 8) and in RLE (3), and
// levels in BIT_PACKED (4), where there are any.
const HEADERS: &str = "int32 | 0 | 0 | 1 | 15 | Thrift
int32 | 0 | 0 | 1 | ff ff ff ff ff ff ff ff ff ff | Thrift
int32 | 0 | 0 | 1 | 15 00 15 08 15 08 2c 15 02 15 00 15 06 15 06 00 00 05 00 00 | PageHeader
int32 | 0 | 0 | 1 | 15 02 15 02 15 02 00 | PageHeader
int32 | 0 | 0 | 1 | 15 04 15 08 15 08 4c 15 02 15 00 00 00 05 00 00 00 | PageKind
int32 | 0 | 0 | 1 | 15 06 15 08 15 08 5c 15 02 15 00 15 02 15 00 15 00 15 00 00 00 05 00 00 00 | PageKind
int32 | 0 | 0 | 1 | 15 08 15 00 15 00 00 | PageKind
int32 | 0 | 0 | 1 | 15 04 15 08 15 08 4c 15 02 15 04 00 00 05 00 00 00 | PageKind
int32 | 0 | 0 | 1 | 15 00 15 08 15 08 2c 15 02 15 04 15 06 15 06 00 00 05 00 00 00 | Encoding
int32 | 0 | 0 | 1 | 15 00 15 08 15 08 2c 15 02 15 10 15 06 15 06 00 00 05 00 00 00 | Encoding
boolean | 0 | 0 | 1 | 15 00 15 0c 15 0c 2c 15 02 15 06 15 06 15 06 00 00 02 00 00 00 03 01 | Encoding
int32 | 0 | 1 | 1 | 15 00 15 08 15 08 2c 15 02 15 00 15 08 15 06 00 00 05 00 00 00 | Encoding
int32 | 1 | 1 | 1 | 15 00 15 08 15 08 2c 15 02 15 00 15 06 15 08 00 00 05 00 00 00 | Encoding
int32 | 0 | 0 | 1 | 15 00 15 00 15 00 2c 15 02 15 04 15 06 15 06 00 00 | Encoding";

#[test]
fn headers_violate_their_rules_in_order(rt: HostRuntime) -> Result<(), Fail> {
    check_rows::<Chunks>(rt.alloc(), HEADERS)?;
    Ok(())
}

// A length that ends early or passes the body, runs that end early or go on, and a level above the maximum, first of
// the repetition levels, then of the definition levels. Then the rules of the values. 2^31 - 1 entries in four bytes
// ask for the memory of one.
const BODIES: &str =
    "int32 | 1 | 1 | 1 | 15 00 15 06 15 06 2c 15 02 15 00 15 06 15 06 00 00 02 00 00 | RunShort
int32 | 1 | 1 | 1 | 15 00 15 0a 15 0a 2c 15 02 15 00 15 06 15 06 00 00 02 00 00 00 02 | RunShort
int32 | 1 | 1 | 1 | 15 00 15 08 15 08 2c 15 02 15 00 15 06 15 06 00 00 ff ff ff ff | RunShort
int32 | 1 | 1 | 2 | 15 00 15 0c 15 0c 2c 15 04 15 00 15 06 15 06 00 00 02 00 00 00 02 00 | RunShort
int32 | 1 | 1 | 1 | 15 00 15 0c 15 0c 2c 15 02 15 00 15 06 15 06 00 00 02 00 00 00 04 00 | RunTooLong
int32 | 1 | 1 | 1 | 15 00 15 0c 15 0c 2c 15 02 15 00 15 06 15 06 00 00 02 00 00 00 02 02 | LevelRange
int32 | 1 | 1 | 1 | 15 00 15 12 15 12 2c 15 02 15 00 15 06 15 06 00 00 02 00 00 00 02 00 02 00 00 | RunShort
int32 | 1 | 1 | 1 | 15 00 15 18 15 18 2c 15 02 15 00 15 06 15 06 00 00 02 00 00 00 02 00 02 00 00 00 04 00 | RunTooLong
int32 | 1 | 2 | 1 | 15 00 15 18 15 18 2c 15 02 15 00 15 06 15 06 00 00 02 00 00 00 02 00 02 00 00 00 02 03 | LevelRange
int32 | 0 | 1 | 1 | 15 00 15 0c 15 0c 2c 15 02 15 00 15 06 15 06 00 00 02 00 00 00 02 01 | PlainShort
text | 0 | 1 | 1 | 15 00 15 16 15 16 2c 15 02 15 00 15 06 15 06 00 00 02 00 00 00 02 01 01 00 00 00 ff | TextUtf8
decimal | 0 | 0 | 1 | 15 00 15 08 15 08 2c 15 02 15 00 15 06 15 06 00 00 00 00 00 00 | DecimalDigits
int32 | 0 | 1 | 2147483647 | 15 00 15 08 15 08 2c 15 fe ff ff ff 0f 15 00 15 06 15 06 00 00 00 00 00 00 | RunShort
int32 | 0 | 0 | 2147483647 | 15 00 15 08 15 08 2c 15 fe ff ff ff 0f 15 00 15 06 15 06 00 00 05 00 00 00 | PlainShort
boolean | 0 | 0 | 2147483647 | 15 00 15 08 15 08 2c 15 fe ff ff ff 0f 15 00 15 06 15 06 00 00 05 00 00 00 | PlainShort";

#[test]
fn bodies_violate_their_rules_in_order(rt: HostRuntime) -> Result<(), Fail> {
    check_rows::<Chunks>(rt.alloc(), BODIES)?;
    Ok(())
}

// The entries aren't as many as the metadata says. A page's own rule comes first.
const COUNTS: &str = "int32 | 0 | 0 | 1 |  | ValueCount
int32 | 0 | 0 | 1 | 15 02 15 00 15 00 00 15 02 15 00 15 00 00 | ValueCount
int32 | 0 | 0 | 2 | 15 00 15 08 15 08 2c 15 02 15 00 15 06 15 06 00 00 05 00 00 00 | ValueCount
int32 | 0 | 0 | 0 | 15 00 15 08 15 08 2c 15 02 15 00 15 06 15 06 00 00 05 00 00 00 | ValueCount
int32 | 0 | 0 | 0 | 15 00 15 08 15 08 2c 15 02 15 00 15 06 15 06 00 00 05 00 00 00 15 | Thrift";

#[test]
fn chunks_have_as_many_entries_as_they_say(rt: HostRuntime) -> Result<(), Fail> {
    check_rows::<Chunks>(rt.alloc(), COUNTS)?;
    Ok(())
}

// An optional integer inside two groups that may be missing.
const INTEGERS: Leaf = Leaf {
    rep: 0,
    def: 3,
    phys: Phys::Int64,
    prim: Prim::Int64,
};

// The page of the entry (0, 3, 9): a header of 17 bytes, the definition levels with their length, and the value.
const PAGE: &[u8] =
    b"\x15\x00\x15\x1e\x15\x1e\x2c\x15\x02\x15\x00\x15\x06\x15\x06\x00\x00\x03\x00\x00\x00\x03\x03\x00\x09\x00\x00\x00\x00\x00\x00\x00";

#[tactic(auto, using(crate::proofs::Given::one_light))]
fn page(alloc: Global) -> Result<Vec<u8>, NoMemory> {
    let mut bytes = Vec::new(alloc);
    let entry = Entry {
        rep: 0,
        def: 3,
        value: Some(Cell::Num(9)),
    };
    write_page(&mut bytes, alloc, &INTEGERS, &[entry])?;
    Ok(bytes)
}

#[test]
fn a_page_is_written(rt: HostRuntime) -> Result<(), Fail> {
    let bytes = page(rt.alloc())?;
    assert_eq!(&rt; bytes.as_slice(), PAGE);
    Ok(())
}

fn page_text(alloc: Global) -> Result<String, Refusal> {
    let (header, used) = read_page_header(PAGE)?;
    let entries = read_page(alloc, &INTEGERS, &header, rest(PAGE, used))?;
    Ok(entries_text(alloc, entries.as_slice())?)
}

#[test]
fn a_page_is_read(rt: HostRuntime) -> Result<(), Fail> {
    let text = text_or_rule(rt.alloc(), page_text(rt.alloc()))?;
    assert_eq!(&rt; text.as_str(), "(0, 3, 9) end");
    Ok(())
}

// How many entries the next page has, if there is one.
fn next_len(alloc: Global, reader: &mut ChunkReader) -> Option<usize> {
    match reader.next(alloc) {
        Ok(Some(page)) => Some(page.len()),
        _ => None,
    }
}

#[test]
fn a_chunk_is_read_page_by_page(rt: HostRuntime) -> Result<(), Fail> {
    let bytes = Bytes::from_slice(rt.alloc(), PAGE)?;
    let mut reader = ChunkReader::new(bytes, INTEGERS, 1);
    assert!(&rt; next_len(rt.alloc(), &mut reader) == Some(1));
    assert!(&rt; next_len(rt.alloc(), &mut reader).is_none());
    Ok(())
}
