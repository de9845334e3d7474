//! A query and a check of a file end with an answer or a rule, and a check refuses what a query does.

use std::alloc::Global;
use test_files::{called, outcome_text, shelf_of};
use test_rows::{Wrong, hex_text};
use test_runs::Outcome;
use vs_bytes::NoMemory;

// Whether bytes are whole lines.
fn are_lines(bytes: &[u8]) -> bool {
    bytes.is_empty() || bytes.ends_with(b"\n")
}

// Whether a call ended with an answer, or with a rule of the file.
fn is_answer_or_rule(run: &Outcome) -> bool {
    let err = run.err.bytes();
    let told = match run.status {
        0 => err.is_empty(),
        4 => err.starts_with(b"vstore: file 1: ") && err.ends_with(b"\n"),
        _ => false,
    };
    told && are_lines(run.out.bytes())
}

// What a query and a check of a file answered.
fn both_text(
    alloc: Global,
    query: &Outcome,
    check: &Outcome,
    file: &[u8],
) -> Result<String, Wrong> {
    let bytes = hex_text(alloc, file)?;
    let query = outcome_text(alloc, query)?;
    let check = outcome_text(alloc, check)?;
    Ok(format!(in alloc; "{bytes}: {query}, {check}")?)
}

// Whether a check refuses a file, where it and a query ended as they may: it refuses at least what the query does.
fn judged(alloc: Global, query: &Outcome, check: &Outcome, file: &[u8]) -> Result<bool, Wrong> {
    let agree = query.status <= check.status;
    if agree && is_answer_or_rule(query) && is_answer_or_rule(check) {
        return Ok(check.status == 4);
    }
    Err(Wrong::Row(both_text(alloc, query, check, file)?))
}

// Calls the program on a file.
fn called_on(alloc: Global, words: &str, file: &[u8]) -> Result<Outcome, NoMemory> {
    called(alloc, words, shelf_of(alloc, file, &[])?, b"")
}

/// Whether a check refuses a file. Beside a query that reads all leaves, one is tried that reads few.
pub fn is_refused(alloc: Global, file: &[u8]) -> Result<bool, Wrong> {
    let check = called_on(alloc, "check f", file)?;
    let few = called_on(alloc, "query f $.a", file)?;
    judged(alloc, &few, &check, file)?;
    let all = called_on(alloc, "query f $", file)?;
    judged(alloc, &all, &check, file)
}
