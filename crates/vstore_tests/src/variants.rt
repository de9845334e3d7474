//! `variant`: the bytes of documents, in hex.

use std::alloc::Global;
use std::test::Fail;
use test_runs::{Wrong, check, check_piece, repeated, split_row, words_of};
use vs_bytes::{NoMemory, hex};

// A row: the widths of offsets and ids, the input, and the output. A `¶` stands for LF.
//
// The metadata of the one name `a`: 11 (version 1, sorted, offsets of 1 byte), 01 name, its ends 00 and 01,
// 61. The object of it: 02 (an object, all numbers of 1 byte), 01 field, id 00, ends 00 and 02, and the value
// 0c 01 (int8, 1). With offsets of 4 bytes and ids of 3 the heads are d1 (11 and 3 in bits 6 and 7) and 2e
// (2, 3 in bits 2 and 3, 2 in bits 4 and 5).
const LINES: &str = r#"1 1 | {"a":1}¶ | 1101000161 02010000020c01¶
1 1 | null¶true¶"hi"¶[]¶{}¶ | 110000 00¶110000 04¶110000 096869¶110000 030000¶110000 020000¶
1 1 | 1.50 | 110000 20010f000000¶
1 1 | 99999999999999999999999999999999999999 | 110000 2800ffffffff3f228a097ac4865aa84c3b4b¶
1 1 | {"b":1,"a":{"b":2}}¶¶ | 11020001026162 0202000100070902010100020c020c01¶
1 1 |  | 
4 3 | {"a":1} | d101000000000000000100000061 2e0100000000000000020000000c01¶
2 1 | [] | 5100000000 07000000¶
1 4 | {"a":1} | 1101000161 32010000000000020c01¶"#;

// Checks a row of `LINES`.
fn check_line(alloc: Global, widths: &str, input: &str, out: &str) -> Result<(), Wrong> {
    let (offset, id) = split_widths(alloc, widths)?;
    let input = input.replace(alloc, '¶', "\n")?;
    let out = out.replace(alloc, '¶', "\n")?;
    check(
        alloc,
        &["variant", "--offset-width", offset, "--id-width", id],
        input.as_bytes(),
        0,
        out.as_bytes(),
        b"",
    )
}

fn split_widths<'a>(alloc: Global, widths: &'a str) -> Result<(&'a str, &'a str), Wrong> {
    match widths.split_once(' ') {
        Some(parts) => Ok(parts),
        None => Err(Wrong::Row(widths.to_string(alloc)?)),
    }
}

#[test]
fn variant_prints_the_bytes_of_each_document(rt: HostRuntime) -> Result<(), Fail> {
    let alloc = rt.alloc();
    for row in LINES.split('\n') {
        let (widths, others) = split_row(alloc, row)?;
        let (input, out) = split_row(alloc, others)?;
        check_line(alloc, widths, input, out)?;
    }
    Ok(())
}

// Checks the line of a long value: it has no names.
fn check_long(alloc: Global, input: &str, bytes: &[u8]) -> Result<(), Wrong> {
    let mut out = Vec::from_slice(alloc, b"110000 ")?;
    hex(&mut out, bytes)?;
    out.extend_from_slice(b"\n")?;
    let words = words_of(alloc, &["variant"])?;
    check_piece(
        alloc,
        words.as_slice(),
        input.as_bytes(),
        4096,
        0,
        out.as_slice(),
        b"",
    )
}

// A text of so many letters, after its head.
fn letters(alloc: Global, head: &[u8], count: usize) -> Result<Vec<u8>, NoMemory> {
    let mut bytes = Vec::from_slice(alloc, head)?;
    for _letter in 0..count {
        bytes.push(b'a')?;
    }
    Ok(bytes)
}

#[test]
fn a_text_of_64_bytes_has_its_length_in_4(rt: HostRuntime) -> Result<(), Fail> {
    let alloc = rt.alloc();
    let quoted = repeated(alloc, "a", "", 63)?;
    let short = format!(in alloc; "\"{quoted}\"")?;
    check_long(
        alloc,
        short.as_str(),
        letters(alloc, b"\xfd", 63)?.as_slice(),
    )?;
    let long = format!(in alloc; "\"{quoted}a\"")?;
    check_long(
        alloc,
        long.as_str(),
        letters(alloc, b"\x40\x40\x00\x00\x00", 64)?.as_slice(),
    )?;
    Ok(())
}

// The bytes of an array of 255 nulls: its ends take 1 byte each.
fn nulls_255(alloc: Global) -> Result<Vec<u8>, NoMemory> {
    let mut bytes = Vec::from_slice(alloc, b"\x03\xff")?;
    for end in 0..256u16 {
        bytes.push(end as u8)?;
    }
    bytes.resize(513, 0)?;
    Ok(bytes)
}

// And of 256 nulls: their count takes 4 bytes, and each end 2.
fn nulls_256(alloc: Global) -> Result<Vec<u8>, NoMemory> {
    let mut bytes = Vec::from_slice(alloc, b"\x17\x00\x01\x00\x00")?;
    for end in 0..257u16 {
        bytes.extend_from_slice(&end.to_le_bytes())?;
    }
    bytes.resize(775, 0)?;
    Ok(bytes)
}

#[test]
fn an_array_of_256_items_is_large(rt: HostRuntime) -> Result<(), Fail> {
    let alloc = rt.alloc();
    let nulls = repeated(alloc, "null", ",", 255)?;
    let small = format!(in alloc; "[{nulls}]")?;
    check_long(alloc, small.as_str(), nulls_255(alloc)?.as_slice())?;
    let large = format!(in alloc; "[{nulls},null]")?;
    check_long(alloc, large.as_str(), nulls_256(alloc)?.as_slice())?;
    Ok(())
}

// A row: a line and its first fault.
const FAULTS: &str = r#"01 | NotJson
"\ud800" | LoneSurrogate
{"a":1,"a":2} | DuplicateKey
1e38 | NumberTooWide"#;

// Checks that a second line is refused, and that the first one is answered.
fn check_refused(alloc: Global, line: &[u8], fault: &str) -> Result<(), Wrong> {
    let mut input = Vec::from_slice(alloc, b"1\n")?;
    input.extend_from_slice(line)?;
    let err = format!(in alloc; "vstore: line 2: {fault}\n")?;
    let words = words_of(alloc, &["variant"])?;
    check_piece(
        alloc,
        words.as_slice(),
        input.as_slice(),
        4096,
        3,
        b"110000 0c01\n",
        err.as_bytes(),
    )
}

#[test]
fn the_documents_before_a_refused_line_are_printed(rt: HostRuntime) -> Result<(), Fail> {
    let alloc = rt.alloc();
    for row in FAULTS.split('\n') {
        let (line, fault) = split_row(alloc, row)?;
        check_refused(alloc, line.as_bytes(), fault)?;
    }
    check_refused(alloc, b"\xff", "NotUtf8")?;
    check_refused(alloc, repeated(alloc, "[", "", 65)?.as_bytes(), "TooDeep")?;
    check_refused(
        alloc,
        repeated(alloc, " ", "", 1_048_577)?.as_bytes(),
        "LineTooLong",
    )?;
    Ok(())
}
