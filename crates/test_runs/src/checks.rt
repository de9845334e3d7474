//! What a call prints, beside what is wanted.

ghost use Rattle.std.specs.Prelude.{◌<◌};

use crate::calls::{Outcome, run, words_of};
use std::alloc::{AllocError, Global};
use variant_store::Word;
use vs_bytes::NoMemory;

/// Why a check failed. A test that ends with it fails, and shows it.
#[derive(Debug, Drop)]
pub enum Wrong {
    /// A call answered or printed something else: its words, and what came.
    Call(String),
    /// A row of a table hasn't its parts.
    Row(String),
    /// There was no memory for the check.
    NoMemory,
}

impl From<NoMemory> for Wrong {
    fn from(_error: NoMemory) -> Wrong {
        Wrong::NoMemory
    }
}

impl From<AllocError> for Wrong {
    fn from(_error: AllocError) -> Wrong {
        Wrong::NoMemory
    }
}

// Some bytes as they are shown.
fn shown(bytes: &[u8]) -> &str {
    match std::str::from_utf8(bytes) {
        Ok(text) => text,
        Err(_) => "bytes that aren't UTF-8",
    }
}

// What a call did.
fn report(
    alloc: Global,
    words: &[Word],
    outcome: &Outcome,
    piece: usize,
) -> Result<String, AllocError> {
    let mut text = String::new(alloc);
    for word in words {
        text.push_str(word.as_str())?;
        text.push_str(" ")?;
    }
    let end = format!(in alloc; "in pieces of {piece}: status {}", outcome.status)?;
    text.push_str(end.as_str())?;
    text.push_str(", out ")?;
    text.push_str(shown(outcome.out.bytes()))?;
    text.push_str(", err ")?;
    text.push_str(shown(outcome.err.bytes()))?;
    Ok(text)
}

/// Checks what a call answers and prints, its input in pieces of at most so many bytes.
pub fn check_piece(
    alloc: Global,
    words: &[Word],
    input: &[u8],
    piece: usize,
    status: u8,
    out: &[u8],
    err: &[u8],
) -> Result<(), Wrong>
    requires { 0 < piece }
{
    let outcome = run(alloc, words, input, piece)?;
    if outcome.status == status && outcome.out.bytes() == out && outcome.err.bytes() == err {
        return Ok(());
    }
    Err(Wrong::Call(report(alloc, words, &outcome, piece)?))
}

/// Checks what a call answers and prints, however its input comes.
pub fn check(
    alloc: Global,
    texts: &[&str],
    input: &[u8],
    status: u8,
    out: &[u8],
    err: &[u8],
) -> Result<(), Wrong> {
    let words = words_of(alloc, texts)?;
    for piece in [1usize, 2, 3, 4096] {
        check_piece(alloc, words.as_slice(), input, piece, status, out, err)?;
    }
    Ok(())
}

/// Checks that a first line has a fault.
pub fn check_fault(alloc: Global, line: &[u8], fault: &str) -> Result<(), Wrong> {
    let err = format!(in alloc; "vstore: line 1: {fault}\n")?;
    check(alloc, &["scan", "$"], line, 3, b"", err.as_bytes())
}

/// The first part of a table's row, and the others: parts have ` | ` between them.
pub fn split_row<'a>(alloc: Global, row: &'a str) -> Result<(&'a str, &'a str), Wrong> {
    match row.split_once(" | ") {
        Some(parts) => Ok(parts),
        None => Err(Wrong::Row(row.to_string(alloc)?)),
    }
}

// Checks a row of `check_rows`.
fn check_row(alloc: Global, path: &str, input: &str, out: &str) -> Result<(), Wrong> {
    let input = input.replace(alloc, '¶', "\n")?;
    let out = out.replace(alloc, '¶', "\n")?;
    check(
        alloc,
        &["scan", path],
        input.as_bytes(),
        0,
        out.as_bytes(),
        b"",
    )
}

/// Checks a table of scans, one a line: a path, the input and the output. A `¶` stands for LF.
pub fn check_rows(alloc: Global, table: &str) -> Result<(), Wrong> {
    for row in table.split('\n') {
        let (path, others) = split_row(alloc, row)?;
        let (input, out) = split_row(alloc, others)?;
        check_row(alloc, path, input, out)?;
    }
    Ok(())
}
