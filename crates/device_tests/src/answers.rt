//! A query and a check whose shelf or output fails, or whose output has no memory.

use crate::rows::{ANSWER, CHECK, COUNTS, QUERY, ROWS, file_with, first_lines};
use crate::runs::{ended, judge, run_failing};
use shelf::MemShelf;
use std::alloc::Global;
use std::test::Fail;
use test_files::{file_of, shelf_of};
use test_rows::Wrong;
use test_runs::{Outcome, call_full_on, words_of};
use vs_bytes::NoMemory;

// How often a query of the rows calls the shelf: for the length, the three ranges of opening, and in each of four groups
// for three chunks: the metadata, and the two leaves of a. A check reads the value's too.
const QUERY_CALLS: u64 = 16;

const CHECK_CALLS: u64 = 20;

// What a query has printed where call k fails, if it makes so many: the lines of the groups before.
fn queried_before(k: u64) -> Option<&'static [u8]> {
    if k < QUERY_CALLS {
        let groups = (k as usize).saturating_sub(4) / 3;
        Some(first_lines(ANSWER, groups * 2))
    } else {
        None
    }
}

// What a check has: nothing.
fn checked_before(k: u64) -> Option<&'static [u8]> {
    if k < CHECK_CALLS { Some(b"") } else { None }
}

// A call on the file f, whose calls of the shelf, and of the output, of these numbers fail. Its first read would.
fn answer_failing(
    alloc: Global,
    texts: &[&str],
    whole: &[u8],
    calls: &[u64],
    writes: &[u64],
) -> Result<Outcome, NoMemory> {
    run_failing(alloc, texts, shelf_of(alloc, whole, calls)?, &[0], writes)
}

// Whether a call left the file as it was, and read nothing of its input.
fn is_kept(alloc: Global, run: &Outcome, whole: &[u8]) -> Result<bool, NoMemory> {
    let file = file_of(alloc, &run.shelf)?;
    Ok(file == whole && run.source.faults() == 0 && run.shelf.write_faults() == 0)
}

// Whether a call ended so at its one failed read of the shelf.
fn is_failed_read(run: &Outcome, out: &[u8]) -> bool {
    ended(run, 5, out, b"vstore: read fault\n") && run.shelf.read_faults() == 1
}

// Checks a call of which call k of the shelf fails: it printed so much by then, or the whole where it makes fewer calls.
fn check_failed_read(
    alloc: Global,
    texts: &[&str],
    file: &[u8],
    begun: Option<&[u8]>,
    whole: &[u8],
    k: u64,
) -> Result<(), Wrong> {
    let run = answer_failing(alloc, texts, file, &[k], &[])?;
    let ends = match begun {
        Some(out) => is_failed_read(&run, out),
        None => ended(&run, 0, whole, b""),
    };
    let is_right = is_kept(alloc, &run, file)? && ends;
    judge(alloc, is_right, &run, k)
}

// A query prints the lines of the groups before, a check nothing.
#[test]
fn a_query_that_cannot_read_prints_the_groups_before(rt: HostRuntime) -> Result<(), Fail> {
    let alloc = rt.alloc();
    let file = file_with(alloc, ROWS)?;
    for k in 0..30u64 {
        check_failed_read(alloc, &QUERY, file.as_slice(), queried_before(k), ANSWER, k)?;
        check_failed_read(alloc, &CHECK, file.as_slice(), checked_before(k), COUNTS, k)?;
    }
    Ok(())
}

// Whether a call of which write k of the output fails printed a part of its answer.
fn is_failed_write(run: &Outcome, answer: &[u8], k: u64) -> bool {
    let out = run.out.bytes();
    if run.out.faults() > 0 {
        ended(run, 6, out, b"vstore: write fault\n")
            && answer.starts_with(out)
            && out.len() < answer.len()
    } else {
        ended(run, 0, answer, b"") && k > 0
    }
}

// Checks such a call.
fn check_failed_write(
    alloc: Global,
    texts: &[&str],
    file: &[u8],
    answer: &[u8],
    k: u64,
) -> Result<(), Wrong> {
    let run = answer_failing(alloc, texts, file, &[], &[k])?;
    let is_right = is_kept(alloc, &run, file)? && is_failed_write(&run, answer, k);
    judge(alloc, is_right, &run, k)
}

// An answer of 51 bytes is written in 13 pieces, or more.
#[test]
fn an_output_that_fails_has_a_part_of_the_answer(rt: HostRuntime) -> Result<(), Fail> {
    let alloc = rt.alloc();
    let file = file_with(alloc, ROWS)?;
    for k in 0..60u64 {
        check_failed_write(alloc, &QUERY, file.as_slice(), ANSWER, k)?;
        check_failed_write(alloc, &CHECK, file.as_slice(), COUNTS, k)?;
    }
    Ok(())
}

// A shelf with the file of the rows.
fn rows_shelf(alloc: Global) -> Result<MemShelf, NoMemory> {
    shelf_of(alloc, file_with(alloc, ROWS)?.as_slice(), &[])
}

// Checks a call whose output has no memory.
fn check_full(alloc: Global, texts: &[&str]) -> Result<(), Wrong> {
    let words = words_of(alloc, texts)?;
    let mut shelf = rows_shelf(alloc)?;
    let (status, err) = call_full_on(alloc, words.as_slice(), &mut shelf, b"")?;
    if status == 7 && err.bytes() == b"vstore: no memory\n".as_slice() {
        return Ok(());
    }
    Err(Wrong::Row(format!(in alloc; "status {status}")?))
}

#[test]
fn an_output_without_memory_is_told(rt: HostRuntime) -> Result<(), Fail> {
    check_full(rt.alloc(), &QUERY)?;
    check_full(rt.alloc(), &CHECK)?;
    Ok(())
}
