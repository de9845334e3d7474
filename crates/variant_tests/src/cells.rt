//! Cells of any bytes: what they mean, or the first rule that they violate.

use json_tree::print;
use std::alloc::{AllocError, Global};
use std::process::Abort;
use std::test::Fail;
use variant_meta::MetaRef;
use variant_read::{to_tree, view};
use vs_bytes::{NoMemory, Rule};

// Why a check failed.
#[derive(Debug, Drop)]
enum Wrong {
    // A row means something else.
    Row(String),
    NoMemory,
}

impl From<NoMemory> for Wrong {
    fn from(_error: NoMemory) -> Wrong {
        Wrong::NoMemory
    }
}

impl From<AllocError> for Wrong {
    fn from(_error: AllocError) -> Wrong {
        Wrong::NoMemory
    }
}

// The value of a hex digit.
fn digit(byte: u8) -> u8 {
    match byte {
        b'0'..=b'9' => byte - b'0',
        b'a'..=b'f' => byte - b'a' + 10,
        _ => 0,
    }
}

// The bytes that hex digits stand for. Spaces are passed over.
fn bytes_of(alloc: Global, digits: &str) -> Result<Vec<u8>, NoMemory> {
    let mut bytes = Vec::new(alloc);
    let mut high = None;
    for byte in digits.as_bytes() {
        if *byte != b' ' {
            match high {
                Some(first) => {
                    bytes.push(first << 4 | digit(*byte))?;
                    high = None;
                }
                None => high = Some(digit(*byte)),
            }
        }
    }
    Ok(bytes)
}

// The canonical text of the value of two cells, or the name of the rule that they violate.
fn meaning(alloc: Global, metadata: &[u8], value: &[u8]) -> Result<Vec<u8>, NoMemory> {
    let mut text = Vec::new(alloc);
    match MetaRef::view(metadata) {
        Ok(meta) => match view(meta, value, 0) {
            Ok(value) => print(&mut text, &to_tree(alloc, value)?)?,
            Err(rule) => text.extend_from_slice(rule.name().as_bytes())?,
        },
        Err(rule) => text.extend_from_slice(rule.name().as_bytes())?,
    }
    Ok(text)
}

fn check_row(alloc: Global, row: &str) -> Result<(), Wrong> {
    if let Some((metadata, others)) = row.split_once(" | ") {
        if let Some((value, wanted)) = others.split_once(" | ") {
            let metadata = bytes_of(alloc, metadata)?;
            let value = bytes_of(alloc, value)?;
            let text = meaning(alloc, metadata.as_slice(), value.as_slice())?;
            if text.as_slice() == wanted.as_bytes() {
                return Ok(());
            }
        }
    }
    Err(Wrong::Row(row.to_string(alloc)?))
}

// A row has the metadata, the value, and what they mean.
fn check_rows(alloc: Global, table: &str) -> Result<(), Wrong> {
    for row in table.split('\n') {
        check_row(alloc, row)?;
    }
    Ok(())
}

// No byte, another version, size and offsets that aren't whole, a first offset that isn't 0, offsets that fall, a
// last offset past the end, a name that isn't UTF-8, names that don't rise. Then 2^24 names in 5 bytes, names that
// needn't rise, and bytes after the last name.
const METADATA: &str = " | 00 | MetaShort
12 00 00 | 00 | MetaVersion
11 | 00 | MetaShort
11 01 00 | 00 | MetaShort
11 01 01 02 61 61 | 00 | MetaOffsets
11 02 00 02 01 61 61 | 00 | MetaOffsets
11 01 00 02 61 | 00 | MetaShort
11 01 00 01 ff | 00 | MetaUtf8
11 02 00 01 02 62 61 | 00 | MetaOrder
11 02 00 01 02 61 61 | 00 | MetaOrder
d1 00 00 00 01 | 00 | MetaShort
01 02 00 01 02 62 61 | 00 | null
31 00 00 ff | 00 | null";

#[test]
fn metadata_violates_its_rules_in_order(rt: HostRuntime) -> Result<(), Fail> {
    check_rows(rt.alloc(), METADATA)?;
    Ok(())
}

// Two rules are violated, and the first is answered. Of metadata: the version and the size; a first offset that isn't
// 0, or offsets that fall, and a last offset past the end; UTF-8 and the order of names. Of values: a last offset past
// the end and an unknown id; an unknown id, or names that fall, and an item past the last offset; a value and the id
// of the field after it.
const TWO_RULES: &str = "12 | 00 | MetaVersion
11 01 01 09 61 | 00 | MetaOffsets
11 02 00 09 08 61 | 00 | MetaOffsets
11 02 00 01 02 ff 61 | 00 | MetaUtf8
11 00 00 | 02 01 00 00 02 00 | ValueShort
11 00 00 | 02 01 00 02 01 00 | FieldId
11 02 00 01 02 61 62 | 02 02 01 00 00 09 01 00 | FieldOrder
11 02 00 01 02 61 62 | 02 02 01 00 00 01 02 fc 00 | TypeId
11 01 00 01 61 | 02 02 00 01 00 01 02 fc 00 | TypeId";

#[test]
fn the_first_of_two_rules_is_answered(rt: HostRuntime) -> Result<(), Fail> {
    check_rows(rt.alloc(), TWO_RULES)?;
    Ok(())
}

// The name `a` with offsets of 2, 3 and 4 bytes, a name of two bytes, and an empty name before another.
const NAMES: &str = "51 01 00 00 00 01 00 61 | 02 01 00 00 01 00 | {\"a\":null}
91 01 00 00 00 00 00 01 00 00 61 | 02 01 00 00 01 00 | {\"a\":null}
d1 01 00 00 00 00 00 00 00 01 00 00 00 61 | 02 01 00 00 01 00 | {\"a\":null}
11 01 00 02 c3 a9 | 02 01 00 00 01 00 | {\"\u{e9}\":null}
11 02 00 00 01 61 | 02 02 00 01 00 01 02 00 04 | {\"\":null,\"a\":true}";

#[test]
fn names_with_offsets_of_each_width(rt: HostRuntime) -> Result<(), Fail> {
    check_rows(rt.alloc(), NAMES)?;
    Ok(())
}

// Constants, integers of each width, decimals of each width and their rules, texts of both kinds, kinds that
// aren't read.
const PRIMITIVES: &str = "11 00 00 |  | ValueShort
11 00 00 | 00 ff | null
11 00 00 | 04 | true
11 00 00 | 08 | false
11 00 00 | 0c | ValueShort
11 00 00 | 0c ff | -1
11 00 00 | 10 ff 7f | 32767
11 00 00 | 14 00 00 00 80 | -2147483648
11 00 00 | 18 ff ff ff ff ff ff ff 7f | 9223372036854775807
11 00 00 | 20 27 | ValueShort
11 00 00 | 20 27 0f 00 00 00 | DecimalScale
11 00 00 | 20 01 0f 00 00 00 | 1.5
11 00 00 | 24 02 96 00 00 00 00 00 00 00 | 1.5
11 00 00 | 28 00 ff ff ff ff 3f 22 8a 09 7a c4 86 5a a8 4c 3b 4b | 99999999999999999999999999999999999999
11 00 00 | 28 00 01 00 00 00 c0 dd 75 f6 85 3b 79 a5 57 b3 c4 b4 | -99999999999999999999999999999999999999
11 00 00 | 28 00 00 00 00 00 40 22 8a 09 7a c4 86 5a a8 4c 3b 4b | DecimalDigits
11 00 00 | 28 00 00 00 00 00 c0 dd 75 f6 85 3b 79 a5 57 b3 c4 b4 | DecimalDigits
11 00 00 | 20 26 01 00 00 00 | 0.00000000000000000000000000000000000001
11 00 00 | 28 27 00 00 00 00 40 22 8a 09 7a c4 86 5a a8 4c 3b 4b | DecimalScale
11 00 00 | 40 01 00 00 | ValueShort
11 00 00 | 40 01 00 00 00 | ValueShort
11 00 00 | 40 01 00 00 00 61 | \"a\"
11 00 00 | 40 01 00 00 00 ff | TextUtf8
11 00 00 | 05 | ValueShort
11 00 00 | 05 61 62 | \"a\"
11 00 00 | 05 ff | TextUtf8
11 00 00 | 1c | FloatLeftOut
11 00 00 | 38 | FloatLeftOut
11 00 00 | 2c | KindNotRead
11 00 00 | 30 | KindNotRead
11 00 00 | 34 | KindNotRead
11 00 00 | 3c | KindNotRead
11 00 00 | 44 | KindNotRead
11 00 00 | 48 | KindNotRead
11 00 00 | 4c | KindNotRead
11 00 00 | 50 | KindNotRead
11 00 00 | 54 | TypeId
11 00 00 | fc | TypeId";

#[test]
fn values_that_hold_no_others(rt: HostRuntime) -> Result<(), Fail> {
    check_rows(rt.alloc(), PRIMITIVES)?;
    Ok(())
}

// Arrays: none there, one without items, 2^32 - 1 items in 5 bytes, an item past the last offset, an item without
// bytes, items that share a byte, a gap, no item before a last offset of 1, an item that ends late.
const ARRAYS: &str = "11 00 00 | 03 | ValueShort
11 00 00 | 03 00 | ValueShort
11 00 00 | 03 00 00 | []
11 00 00 | 13 ff ff ff ff | ValueShort
11 00 00 | 03 01 00 01 | ValueShort
11 00 00 | 03 01 02 01 00 | Offsets
11 00 00 | 03 01 01 01 00 | ValueShort
11 00 00 | 03 02 00 00 01 00 | Offsets
11 00 00 | 03 01 01 02 00 00 | [null]
11 00 00 | 03 00 01 00 | []
11 00 00 | 03 01 00 01 0c 01 | ValueShort
11 00 00 | 03 02 00 01 02 04 08 | [true,false]
11 00 00 | 07 02 00 00 01 00 02 00 04 08 | [true,false]
11 00 00 | 13 02 00 00 00 00 01 02 04 08 | [true,false]";

#[test]
fn arrays_and_their_rules(rt: HostRuntime) -> Result<(), Fail> {
    check_rows(rt.alloc(), ARRAYS)?;
    Ok(())
}

// Objects: items that lie out of order, items that share bytes, an id past the dictionary, names that fall, an id
// twice, equal names, a violation of the id before one of the value, and ids of 2 bytes.
const OBJECTS: &str = "11 02 00 01 02 61 62 | 02 02 00 01 00 02 04 0c 02 0c 01 | {\"a\":2,\"b\":1}
11 02 00 01 02 61 62 | 02 02 00 01 02 00 04 0c 02 0c 01 | {\"a\":1,\"b\":2}
11 02 00 01 02 61 62 | 02 02 00 01 00 00 02 0c 01 | Offsets
11 00 00 | 02 00 00 | {}
11 00 00 | 02 01 00 00 01 00 | FieldId
11 02 00 01 02 61 62 | 02 02 01 00 00 01 02 00 00 | FieldOrder
11 02 00 01 02 61 62 | 02 02 00 00 00 01 02 00 00 | FieldOrder
01 02 00 01 02 61 61 | 02 02 00 01 00 01 02 00 00 | FieldOrder
01 02 00 01 02 62 61 | 02 02 01 00 00 01 02 04 08 | {\"a\":true,\"b\":false}
11 02 00 01 02 61 62 | 02 02 01 00 00 01 02 00 fc | FieldOrder
11 02 00 01 02 61 62 | 02 02 00 01 00 01 02 fc fc | TypeId
11 01 00 01 61 | 12 01 00 00 00 01 04 | {\"a\":true}
11 01 00 01 61 | 42 01 00 00 00 00 01 | ValueShort";

#[test]
fn objects_and_their_rules(rt: HostRuntime) -> Result<(), Fail> {
    check_rows(rt.alloc(), OBJECTS)?;
    Ok(())
}

// Offsets of 3 and 4 bytes in an array, of 4 in an object, ids of 4 bytes, and a count of 4 bytes in an object.
const WIDTHS: &str = "11 00 00 | 0b 01 00 00 00 01 00 00 04 | [true]
11 00 00 | 0f 01 00 00 00 00 01 00 00 00 04 | [true]
11 01 00 01 61 | 0e 01 00 00 00 00 00 01 00 00 00 04 | {\"a\":true}
11 01 00 01 61 | 32 01 00 00 00 00 00 01 04 | {\"a\":true}
11 01 00 01 61 | 42 01 00 00 00 00 00 01 04 | {\"a\":true}";

#[test]
fn numbers_of_each_width(rt: HostRuntime) -> Result<(), Fail> {
    check_rows(rt.alloc(), WIDTHS)?;
    Ok(())
}

// Arrays in one another, the innermost without elements: each but that one has 4 bytes before its element.
fn nested(alloc: Global, depth: u8) -> Result<Vec<u8>, NoMemory> {
    let mut bytes = Vec::new(alloc);
    for left in (1..depth).rev() {
        bytes.extend_from_slice(&[3, 1, 0, left.wrapping_mul(4).wrapping_sub(1)])?;
    }
    bytes.extend_from_slice(&[3, 0, 0])?;
    Ok(bytes)
}

// The rule that the bytes violate inside so many arrays.
fn violation(bytes: &[u8], above: u8) -> Option<Rule> {
    if above > 64 {
        return None;
    }
    match MetaRef::view(b"\x11\x00\x00") {
        Ok(meta) => view(meta, bytes, above).err(),
        Err(rule) => Some(rule),
    }
}

#[test]
fn arrays_nest_64_deep_and_no_deeper(rt: HostRuntime) -> Result<(), Fail> {
    let deepest = nested(rt.alloc(), 64)?;
    assert!(&rt; violation(deepest.as_slice(), 0).is_none());
    assert!(&rt; violation(deepest.as_slice(), 1) == Some(Rule::ValueTooDeep));
    let deeper = nested(rt.alloc(), 65)?;
    assert!(&rt; violation(deeper.as_slice(), 0) == Some(Rule::ValueTooDeep));
    assert!(&rt; violation(b"\x03\x00\x00", 64) == Some(Rule::ValueTooDeep));
    assert!(&rt; violation(b"\x03", 64) == Some(Rule::ValueTooDeep));
    assert!(&rt; violation(b"\x00", 64).is_none());
    Ok(())
}
