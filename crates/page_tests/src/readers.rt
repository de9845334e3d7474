//! Values of the compact protocol, read and passed over.

use std::alloc::Global;
use std::process::Abort;
use std::test::Fail;
use test_rows::{Shown, Wrong, bytes_of, check_rows, hex_text, text_or_rule};
use thrift_compact::Reader;
use vs_bytes::{NoMemory, Refusal, Rule};

// The elements of a list of integers. Any other list is passed over.
fn list_text(alloc: Global, reader: &mut Reader<'_>) -> Result<String, Refusal> {
    let mut inside = *reader;
    let (kind, size) = inside.list()?;
    if kind != 5 {
        reader.skip(9)?;
        return Ok(format!(in alloc; "{size} of type {kind}")?);
    }
    let mut text = String::new(alloc);
    for _i in 0..size {
        let next = format!(in alloc; "[{}]", inside.i32()?)?;
        text.push_str(next.as_str())?;
    }
    *reader = inside;
    Ok(text)
}

// The value of a field. What is no number, binary or list is passed over.
fn value_text(alloc: Global, reader: &mut Reader<'_>, kind: u8) -> Result<String, Refusal> {
    match kind {
        1 => Ok("true".to_string(alloc)?),
        2 => Ok("false".to_string(alloc)?),
        3 => Ok(format!(in alloc; "{}", reader.i8()?)?),
        5 => Ok(format!(in alloc; "{}", reader.i32()?)?),
        6 => Ok(format!(in alloc; "{}", reader.i64()?)?),
        8 => Ok(hex_text(alloc, reader.binary()?)?),
        9 => list_text(alloc, reader),
        _ => {
            reader.skip(kind)?;
            Ok(format!(in alloc; "type {kind}")?)
        }
    }
}

// The fields of a struct up to its stop, where no struct inside is entered.
fn fields_text(alloc: Global, reader: &mut Reader<'_>) -> Result<String, Refusal> {
    let mut text = String::new(alloc);
    for _turn in 0..u64::MAX {
        let Some((id, kind)) = reader.field()? else {
            break;
        };
        let value = value_text(alloc, reader, kind)?;
        let next = format!(in alloc; "{id}: {value}, ")?;
        text.push_str(next.as_str())?;
    }
    Ok(text)
}

fn struct_text(alloc: Global, bytes: &[u8]) -> Result<String, Refusal> {
    let mut reader = Reader::new(bytes);
    let mut text = fields_text(alloc, &mut reader)?;
    let end = format!(in alloc; "{} bytes", reader.place())?;
    text.push_str(end.as_str())?;
    Ok(text)
}

// A row gives the bytes of a struct. It shows the fields, each by its id, and how many bytes they take.
struct Fields;

impl Shown for Fields {
    fn shown(alloc: Global, given: &str) -> Result<String, Wrong> {
        let bytes = bytes_of(alloc, given)?;
        text_or_rule(alloc, struct_text(alloc, &bytes))
    }
}

// A field after field 0 or 1, with an id of its own, below 0, and past 32767. Types that there aren't.
const HEADERS: &str = "00 | 1 bytes
15 02 00 | 1: 1, 3 bytes
15 02 15 01 00 | 1: 1, 2: -1, 5 bytes
f5 02 00 | 15: 1, 3 bytes
05 20 02 00 | 16: 1, 4 bytes
05 01 02 00 | -1: 1, 4 bytes
05 01 02 25 04 00 | -1: 1, 1: 2, 6 bytes
05 fe ff 03 02 00 | 32767: 1, 6 bytes
11 12 00 | 1: true, 2: false, 3 bytes
 | Thrift
15 | Thrift
15 02 | Thrift
05 | Thrift
05 fe ff 03 02 15 02 00 | Thrift
05 80 80 04 02 00 | Thrift
10 00 | Thrift
1d 00 | Thrift
1f 00 | Thrift
ff | Thrift";

#[test]
fn headers_of_fields(rt: HostRuntime) -> Result<(), Fail> {
    check_rows::<Fields>(rt.alloc(), HEADERS)?;
    Ok(())
}

// The least and the greatest of each width, one more, and one that ends early. A varint may be longer than it needs,
// up to ten bytes, and is below 2^64. Lengths up to the end, and past it.
const NUMBERS: &str = "13 ff 13 80 13 7f 00 | 1: -1, 2: -128, 3: 127, 7 bytes
13 | Thrift
15 ff ff ff ff 0f 15 fe ff ff ff 0f 00 | 1: -2147483648, 2: 2147483647, 13 bytes
15 82 80 00 00 | 1: 1, 5 bytes
15 80 80 80 80 10 00 | Thrift
15 80 80 80 80 | Thrift
16 ff ff ff ff ff ff ff ff ff 01 00 | 1: -9223372036854775808, 12 bytes
16 fe ff ff ff ff ff ff ff ff 01 00 | 1: 9223372036854775807, 12 bytes
16 80 80 80 80 80 80 80 80 80 02 00 | Thrift
16 ff ff ff ff ff ff ff ff ff ff 00 | Thrift
ff ff ff ff ff ff ff ff ff ff | Thrift
18 02 68 69 00 | 1: 6869, 5 bytes
18 00 00 | 1: , 3 bytes
18 03 68 69 | Thrift
18 ff ff ff ff ff ff ff ff ff 01 68 | Thrift
18 | Thrift";

#[test]
fn numbers_and_binaries(rt: HostRuntime) -> Result<(), Fail> {
    check_rows::<Fields>(rt.alloc(), NUMBERS)?;
    Ok(())
}

// Short and long headers of a list, 2^32 - 1 elements in six bytes, and 2^32. A truth value in a list has a byte. A
// map without entries has no types, any other has both in one byte.
const CONTAINERS: &str = "19 25 02 04 00 | 1: [1][2], 5 bytes
19 f5 02 02 04 00 | 1: [1][2], 6 bytes
19 05 00 | 1: , 3 bytes
19 f5 ff ff ff ff 0f | Thrift
19 f5 80 80 80 80 10 00 | Thrift
19 f8 ff ff ff ff 0f 00 00 | Thrift
19 15 | Thrift
19 21 01 02 00 | 1: 2 of type 1, 5 bytes
19 1d 00 00 | Thrift
19 18 01 61 00 | 1: 1 of type 8, 5 bytes
19 1c 15 02 00 00 | 1: 1 of type 12, 6 bytes
1a 15 02 00 | 1: type 10, 4 bytes
1b 00 00 | 1: type 11, 3 bytes
1b 01 58 02 01 61 00 | 1: type 11, 7 bytes
1b 01 11 01 02 00 | 1: type 11, 6 bytes
1b 01 d8 02 01 61 00 | Thrift
1b 01 | Thrift
1b 80 80 80 80 10 55 00 | Thrift
1b ff ff ff ff 0f 55 00 | Thrift
1c 15 02 00 15 04 00 | 1: type 12, 2: 2, 7 bytes
1c 15 02 | Thrift
17 00 00 00 00 00 00 f0 3f 00 | 1: type 7, 10 bytes
17 00 00 00 00 00 00 f0 | Thrift
14 02 00 | 1: type 4, 3 bytes
14 80 80 04 00 | Thrift";

#[test]
fn containers_and_what_is_passed_over(rt: HostRuntime) -> Result<(), Fail> {
    check_rows::<Fields>(rt.alloc(), CONTAINERS)?;
    Ok(())
}

// A struct inside a struct inside a struct, and so on, the innermost without fields.
fn nested(alloc: Global, depth: usize) -> Result<Vec<u8>, NoMemory> {
    let mut bytes = Vec::new(alloc);
    bytes.resize(depth, 0x1c)?;
    bytes.resize(depth.saturating_mul(2).saturating_add(1), 0)?;
    Ok(bytes)
}

// A list of one list of one list, and so on, the innermost without elements.
fn nested_lists(alloc: Global, depth: usize) -> Result<Vec<u8>, NoMemory> {
    let mut bytes = Vec::new(alloc);
    bytes.resize(depth, 0x19)?;
    bytes.push(0x05)?;
    bytes.push(0x00)?;
    Ok(bytes)
}

// The rule that a struct of one field violates where its value is passed over.
fn violation(bytes: &[u8]) -> Option<Rule> {
    let mut reader = Reader::new(bytes);
    match reader.field() {
        Ok(Some((_, kind))) => reader.skip(kind).err(),
        Ok(None) => None,
        Err(rule) => Some(rule),
    }
}

#[test]
fn what_is_passed_over_nests_32_deep_and_no_deeper(rt: HostRuntime) -> Result<(), Fail> {
    let deepest = nested(rt.alloc(), 32)?;
    assert!(&rt; violation(&deepest).is_none());
    let deeper = nested(rt.alloc(), 33)?;
    assert!(&rt; violation(&deeper) == Some(Rule::Thrift));
    let deepest = nested_lists(rt.alloc(), 32)?;
    assert!(&rt; violation(&deepest).is_none());
    let deeper = nested_lists(rt.alloc(), 33)?;
    assert!(&rt; violation(&deeper) == Some(Rule::Thrift));
    Ok(())
}

// After an error the reader stands where it stood. A struct inside is entered and left.
#[test]
fn a_reader_stands_still_after_an_error(rt: HostRuntime) -> Result<(), Fail> {
    let mut reader = Reader::new(b"\x15");
    assert!(&rt; reader.field() == Ok(Some((1, 5))));
    assert!(&rt; reader.i32() == Err(Rule::Thrift));
    assert!(&rt; reader.place() == 1);
    let mut reader = Reader::new(b"\x1c\x15\x02\x00\x15\x04\x00");
    assert!(&rt; reader.field() == Ok(Some((1, 12))));
    let outer = reader.begin();
    assert!(&rt; reader.field() == Ok(Some((1, 5))));
    assert!(&rt; reader.i32() == Ok(1));
    assert!(&rt; reader.field() == Ok(None));
    reader.end(outer);
    assert!(&rt; reader.field() == Ok(Some((2, 5))));
    Ok(())
}
