//! The depth of a line, its length, and output of many pieces.

use std::alloc::Global;
use std::test::Fail;
use test_runs::{Wrong, check, check_fault, check_piece, repeated, words_of};
use vs_bytes::NoMemory;

// A text, so many copies of another one, and a third.
fn joined(
    alloc: Global,
    before: &str,
    text: &str,
    count: usize,
    after: &str,
) -> Result<String, NoMemory> {
    let mut all = repeated(alloc, text, "", count)?;
    all.insert_str(0, before)?;
    all.push_str(after)?;
    Ok(all)
}

// So many arrays in one another.
fn nested(alloc: Global, count: usize) -> Result<String, NoMemory> {
    let mut all = repeated(alloc, "[", "", count)?;
    all.push_str(repeated(alloc, "]", "", count)?.as_str())?;
    Ok(all)
}

#[test]
fn arrays_nest_64_deep(rt: HostRuntime) -> Result<(), Fail> {
    let alloc = rt.alloc();
    let deep = nested(alloc, 64)?;
    let out = format!(in alloc; "{{\"$\":{deep}}}\n")?;
    check(
        alloc,
        &["scan", "$"],
        deep.as_bytes(),
        0,
        out.as_bytes(),
        b"",
    )?;
    Ok(())
}

#[test]
fn brackets_nest_no_deeper_than_64(rt: HostRuntime) -> Result<(), Fail> {
    let alloc = rt.alloc();
    check_fault(alloc, repeated(alloc, "[", "", 65)?.as_bytes(), "TooDeep")?;
    check_fault(alloc, nested(alloc, 65)?.as_bytes(), "TooDeep")?;
    check_fault(
        alloc,
        repeated(alloc, "{\"a\":", "", 65)?.as_bytes(),
        "TooDeep",
    )?;
    // A closing bracket too many makes room for one more.
    check_fault(alloc, b"]", "NotJson")?;
    Ok(())
}

#[test]
fn not_utf8_comes_before_too_deep(rt: HostRuntime) -> Result<(), Fail> {
    let mut line = nested(rt.alloc(), 65)?.into_bytes();
    line.push(b'\xff')?;
    check_fault(rt.alloc(), line.as_slice(), "NotUtf8")?;
    Ok(())
}

// Brackets within a string open nothing, whether it is closed or not.
#[test]
fn brackets_within_a_string_open_nothing(rt: HostRuntime) -> Result<(), Fail> {
    let alloc = rt.alloc();
    check_fault(
        alloc,
        joined(alloc, "\"", "[", 65, "")?.as_bytes(),
        "NotJson",
    )?;
    let closed = joined(alloc, "\"", "[", 65, "\\\"[[\"")?;
    check(alloc, &["scan", "$.a"], closed.as_bytes(), 0, b"{}\n", b"")?;
    Ok(())
}

// Checks a scan of so many spaces and some bytes.
fn check_spaces(
    alloc: Global,
    spaces: usize,
    after: &str,
    status: u8,
    out: &[u8],
    err: &[u8],
) -> Result<(), Wrong> {
    let input = joined(alloc, "", " ", spaces, after)?;
    let words = words_of(alloc, &["scan", "$"])?;
    check_piece(
        alloc,
        words.as_slice(),
        input.as_bytes(),
        65_536,
        status,
        out,
        err,
    )
}

// Spaces, with a number after them; the LF counts for no line.
#[test]
fn a_line_has_at_most_1048576_bytes(rt: HostRuntime) -> Result<(), Fail> {
    let out = b"{\"$\":7}\n{\"$\":8}\n";
    let err = b"vstore: line 1: LineTooLong\n";
    check_spaces(rt.alloc(), 1_048_575, "7\n8\n", 0, out, b"")?;
    check_spaces(rt.alloc(), 1_048_576, "7\n8\n", 3, b"", err)?;
    // A blank line has the same limit, and a line without end is refused without being held whole.
    check_spaces(rt.alloc(), 1_048_576, "", 0, b"", b"")?;
    check_spaces(rt.alloc(), 3_200_000, "", 3, b"", err)?;
    Ok(())
}

// Output of more than a piece is written whole and in order.
#[test]
fn output_of_many_pieces_is_written_whole(rt: HostRuntime) -> Result<(), Fail> {
    let alloc = rt.alloc();
    let input = repeated(alloc, "{\"a\":123456789}\n", "", 20_000)?;
    let out = repeated(alloc, "{\"$.a\":123456789}\n", "", 20_000)?;
    let words = words_of(alloc, &["scan", "$.a"])?;
    check_piece(
        alloc,
        words.as_slice(),
        input.as_bytes(),
        4096,
        0,
        out.as_bytes(),
        b"",
    )?;
    Ok(())
}
