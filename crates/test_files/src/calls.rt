//! Calls with the words of a row, and what they answer as text.

use outside::{MemSink, MemSource};
use shelf::MemShelf;
use std::alloc::Global;
use test_rows::Wrong;
use test_runs::{Outcome, call_on};
use vs_bytes::{NoMemory, Text};

/// The documents, or the lines, of a row: a `¶` stands for LF.
pub fn lines_of(alloc: Global, text: &str) -> Result<String, Wrong> {
    Ok(text.replace(alloc, '¶', "\n")?)
}

// The words of a row: one space stands between two of them, and a `·` for a space within one.
fn row_words(alloc: Global, given: &str) -> Result<Vec<Text>, NoMemory> {
    let mut words = Vec::new(alloc);
    for word in given.split(' ') {
        let spaced = word.replace(alloc, '·', " ")?;
        words.push(Text::from_str(alloc, spaced.as_str())?)?;
    }
    Ok(words)
}

/// Calls the program on a shelf, with the words of a row.
pub fn called(
    alloc: Global,
    words: &str,
    shelf: MemShelf,
    input: &[u8],
) -> Result<Outcome, NoMemory> {
    let words = row_words(alloc, words)?;
    let source = MemSource::new(Vec::from_slice(alloc, input)?, 4096, Vec::new(alloc));
    let out = MemSink::new(alloc, Vec::new(alloc));
    let err = MemSink::new(alloc, Vec::new(alloc));
    Ok(call_on(alloc, words.as_slice(), shelf, source, out, err))
}

/// Calls the program where there are no files.
pub fn loaded(alloc: Global, words: &str, input: &[u8]) -> Result<Outcome, NoMemory> {
    called(alloc, words, MemShelf::new(alloc, Vec::new(alloc)), input)
}

fn shown(bytes: &[u8]) -> &str {
    match std::str::from_utf8(bytes) {
        Ok(text) => text,
        Err(_) => "bytes that aren't UTF-8",
    }
}

/// The status of a call, and what it printed on both outputs; a `¶` stands for LF.
pub fn outcome_text(alloc: Global, outcome: &Outcome) -> Result<String, Wrong> {
    let mut text = format!(in alloc; "{}", outcome.status)?;
    let out = shown(outcome.out.bytes()).replace(alloc, '\n', "¶")?;
    let err = shown(outcome.err.bytes()).replace(alloc, '\n', "¶")?;
    if !out.is_empty() || !err.is_empty() {
        text.push_str(" ")?;
    }
    text.push_str(out.as_str())?;
    text.push_str(err.as_str())?;
    Ok(text)
}

/// How a call on a shelf ends, as `outcome_text`.
pub fn answer_text(
    alloc: Global,
    words: &str,
    shelf: MemShelf,
    input: &[u8],
) -> Result<String, Wrong> {
    outcome_text(alloc, &called(alloc, words, shelf, input)?)
}

/// Appends how a call on a shelf ends, and gives the shelf back.
pub fn push_answer(
    alloc: Global,
    text: &mut String,
    words: &str,
    shelf: MemShelf,
    input: &[u8],
) -> Result<MemShelf, Wrong> {
    let call = called(alloc, words, shelf, input)?;
    text.push_str(outcome_text(alloc, &call)?.as_str())?;
    Ok(call.shelf)
}
