//! Footers that would be longer than 67,108,864 bytes.

use std::alloc::Global;
use std::test::Fail;
use test_files::{file_of, loaded, outcome_text, without_footer};
use test_rows::Wrong;
use test_runs::{Outcome, repeated};
use vs_bytes::NoMemory;

// How many groups a file of `load_rows` has at most.
//
// In the footer a group takes 32,189 bytes, and 1 to 3 for the place of each of its four chunks: 2 for the list, 26 for each
// chunk without its path and place, 13, 10, 16,024 and 16,030 for the paths, 3 for the size of 102 bytes, 2 for the rows,
// and 1 for its end. The rest takes 16,156 bytes: 16,120 of them are the schema's eight elements. With 2,083 groups that is
// 67,090,515 bytes, and with one more 67,122,716.
const MOST_GROUPS: usize = 2_083;

// Loads so many empty objects, into groups of so many, under a schema whose one field has a name of 16,000 letters.
fn load_rows(alloc: Global, rows: usize, group_rows: usize) -> Result<Outcome, NoMemory> {
    let name = repeated(alloc, "a", "", 16_000)?;
    let words = format!(in alloc; "load f --group-rows={group_rows} --schema={{{name}:int8}}")?;
    let input = repeated(alloc, "{}\n", "", rows)?;
    loaded(alloc, words.as_str(), input.as_bytes())
}

// The file of so many rows, which fit.
fn file_with(alloc: Global, rows: usize, group_rows: usize) -> Result<Vec<u8>, Wrong> {
    let load = load_rows(alloc, rows, group_rows)?;
    if load.status == 0 {
        return Ok(Vec::from_slice(alloc, file_of(alloc, &load.shelf)?)?);
    }
    Err(Wrong::Row(outcome_text(alloc, &load)?))
}

// Checks that so many rows don't fit, and that these groups stand.
fn check_full(alloc: Global, rows: usize, group_rows: usize, groups: &[u8]) -> Result<(), Wrong> {
    let load = load_rows(alloc, rows, group_rows)?;
    let is_told = load.status == 3 && load.err.bytes() == b"vstore: footer full\n".as_slice();
    if is_told && file_of(alloc, &load.shelf)? == groups {
        return Ok(());
    }
    Err(Wrong::Row(outcome_text(alloc, &load)?))
}

// The last group stays open, and the file ends with the group before it.
#[test]
fn a_footer_has_at_most_67108864_bytes(rt: HostRuntime) -> Result<(), Fail> {
    let alloc = rt.alloc();
    let file = file_with(alloc, MOST_GROUPS, 1)?;
    let groups = without_footer(file.as_slice());
    assert_eq!(&rt; groups.len(), 4 + 102 * MOST_GROUPS);
    assert_eq!(&rt; file.len().saturating_sub(groups.len()), 67_090_515 + 8);
    check_full(alloc, MOST_GROUPS + 1, 1, groups)?;
    Ok(())
}

// The last group isn't full: it closes where the input ends. A group of two rows takes a few bytes more, and as many fit.
#[test]
fn a_group_that_the_end_closes_can_be_one_too_many(rt: HostRuntime) -> Result<(), Fail> {
    let alloc = rt.alloc();
    let file = file_with(alloc, 2 * MOST_GROUPS, 2)?;
    let groups = without_footer(file.as_slice());
    check_full(alloc, 2 * MOST_GROUPS + 1, 2, groups)?;
    Ok(())
}
