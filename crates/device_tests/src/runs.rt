//! Calls whose devices fail at some of their calls.

use crate::rows::ROWS;
use outside::{MemSink, MemSource};
use shelf::MemShelf;
use std::alloc::Global;
use test_files::outcome_text;
use test_rows::Wrong;
use test_runs::{Outcome, call_on, words_of};
use vs_bytes::NoMemory;

/// A call whose input, in pieces of a byte, and output, in pieces of four, fail at some of their calls.
pub fn run_failing(
    alloc: Global,
    texts: &[&str],
    shelf: MemShelf,
    reads: &[u64],
    writes: &[u64],
) -> Result<Outcome, NoMemory> {
    let words = words_of(alloc, texts)?;
    let source = MemSource::new(
        Vec::from_slice(alloc, ROWS)?,
        1,
        Vec::from_slice(alloc, reads)?,
    );
    let out = MemSink::in_pieces(alloc, 4, Vec::from_slice(alloc, writes)?);
    let err = MemSink::new(alloc, Vec::new(alloc));
    Ok(call_on(alloc, words.as_slice(), shelf, source, out, err))
}

/// Whether a call ended so.
pub fn ended(run: &Outcome, status: u8, out: &[u8], err: &[u8]) -> bool {
    run.status == status && run.out.bytes() == out && run.err.bytes() == err
}

/// Hands on whether a call is right, with what it answered.
pub fn judge(alloc: Global, is_right: bool, run: &Outcome, k: u64) -> Result<(), Wrong> {
    if is_right {
        return Ok(());
    }
    let text = outcome_text(alloc, run)?;
    Err(Wrong::Row(format!(in alloc; "call {k}: {text}")?))
}
