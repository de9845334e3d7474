//! A load whose shelf or input fails, or whose input has a fault, leaves a part of the file.

use crate::rows::{LOAD, LOAD_ROW, ROWS, file_with, first_lines, lf_count};
use crate::runs::{ended, judge, run_failing};
use shelf::MemShelf;
use std::alloc::Global;
use std::test::Fail;
use test_files::{file_of, loaded, without_footer};
use test_rows::Wrong;
use test_runs::Outcome;
use vs_bytes::NoMemory;

// How often a load of the rows calls the shelf: to create the file, for the magic number, for four chunks in each of four
// groups, and for the footer.
const LOAD_CALLS: u64 = 19;

// A load of the rows on a shelf whose calls of these numbers fail, and whose input fails at these reads.
fn load_failing(alloc: Global, calls: &[u64], reads: &[u64]) -> Result<Outcome, NoMemory> {
    let shelf = MemShelf::new(alloc, Vec::from_slice(alloc, calls)?);
    run_failing(alloc, &LOAD, shelf, reads, &[])
}

// Whether a load of which call k of the shelf fails left a part of the whole file, or none.
fn is_failed_load(run: &Outcome, file: &[u8], whole: &[u8], k: u64) -> bool {
    if k < LOAD_CALLS {
        ended(run, 6, b"", b"vstore: write fault\n")
            && run.shelf.write_faults() == 1
            && whole.starts_with(file)
            && file.len() < whole.len()
    } else {
        ended(run, 0, b"", b"") && file == whole
    }
}

// Checks a load of which call k of the shelf fails.
fn check_failed_load(alloc: Global, whole: &[u8], k: u64) -> Result<(), Wrong> {
    let run = load_failing(alloc, &[k], &[])?;
    let is_right = is_failed_load(&run, file_of(alloc, &run.shelf)?, whole, k);
    judge(alloc, is_right, &run, k)
}

#[test]
fn a_load_that_cannot_write_leaves_a_part_of_the_file(rt: HostRuntime) -> Result<(), Fail> {
    let alloc = rt.alloc();
    let whole = file_with(alloc, ROWS)?;
    for k in 0..30u64 {
        check_failed_load(alloc, whole.as_slice(), k)?;
    }
    Ok(())
}

// Whether a call ended so, and left the groups that the first rows fill, so many rows, and no footer.
fn left_groups(
    alloc: Global,
    run: &Outcome,
    status: u8,
    err: &[u8],
    rows: usize,
) -> Result<bool, NoMemory> {
    let file = file_with(alloc, first_lines(ROWS, rows / 2 * 2))?;
    let left = file_of(alloc, &run.shelf)?;
    Ok(ended(run, status, b"", err) && left == without_footer(file.as_slice()))
}

// Checks a load of which read k fails, the k bytes before it being read: the groups stand whose rows were read.
fn check_failed_read(alloc: Global, k: usize) -> Result<(), Wrong> {
    let run = load_failing(alloc, &[], &[k as u64])?;
    let is_right = if k <= ROWS.len() {
        let rows = lf_count(&ROWS[..k]);
        left_groups(alloc, &run, 5, b"vstore: read fault\n", rows)?
    } else {
        ended(&run, 0, b"", b"")
    };
    judge(alloc, is_right, &run, k as u64)
}

#[test]
fn a_load_that_cannot_read_leaves_the_groups_before(rt: HostRuntime) -> Result<(), Fail> {
    for k in 0..60usize {
        check_failed_read(rt.alloc(), k)?;
    }
    Ok(())
}

// A load whose line after so many rows has a fault.
fn load_bad_line(alloc: Global, rows: usize) -> Result<Outcome, NoMemory> {
    let mut input = Vec::from_slice(alloc, first_lines(ROWS, rows))?;
    input.extend_from_slice(b"[1,\n{}\n")?;
    loaded(alloc, LOAD_ROW, input.as_slice())
}

// Checks such a load: the groups before the line stand.
fn check_bad_line(alloc: Global, rows: usize) -> Result<(), Wrong> {
    let run = load_bad_line(alloc, rows)?;
    let err = format!(in alloc; "vstore: line {}: NotJson\n", rows.saturating_add(1))?;
    let is_right = left_groups(alloc, &run, 3, err.as_bytes(), rows)?;
    judge(alloc, is_right, &run, rows as u64)
}

#[test]
fn a_load_of_a_line_with_a_fault_leaves_the_groups_before(rt: HostRuntime) -> Result<(), Fail> {
    for rows in 0..8usize {
        check_bad_line(rt.alloc(), rows)?;
    }
    Ok(())
}
