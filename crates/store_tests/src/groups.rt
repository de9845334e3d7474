//! Where row groups end: at the limits of rows, of bytes and of entries.

use std::alloc::Global;
use std::test::Fail;
use test_files::{answer_text, lines_of, load_shelf};
use test_rows::{Shown, Wrong, check_rows, split_row};
use test_runs::repeated;
use vs_bytes::NoMemory;

// A row gives the options of a load and its documents: what a check of the file prints.
struct Groups;

impl Shown for Groups {
    fn shown(alloc: Global, given: &str) -> Result<String, Wrong> {
        let (options, input) = split_row(alloc, given)?;
        let load = format!(in alloc; "load f {options}")?;
        check_text(alloc, load.as_str(), lines_of(alloc, input)?.as_str())
    }
}

// Loads documents, and shows how a check of the file ends.
fn check_text(alloc: Global, load: &str, input: &str) -> Result<String, Wrong> {
    let shelf = load_shelf(alloc, load, input.as_bytes())?;
    answer_text(alloc, "check f", shelf, b"")
}

// Seven rows in groups of so many, the limit met at the last row and passed by none, blank lines that are no rows, and
// groups whose first row is also the last.
const GROUPS: &str = r#"--group-rows=1 | 1¶2¶3¶4¶5¶6¶7 | 0 ok 7 groups 7 rows¶
--group-rows=2 | 1¶2¶3¶4¶5¶6¶7 | 0 ok 4 groups 7 rows¶
--group-rows=3 | 1¶2¶3¶4¶5¶6¶7 | 0 ok 3 groups 7 rows¶
--group-rows=6 | 1¶2¶3¶4¶5¶6¶7 | 0 ok 2 groups 7 rows¶
--group-rows=7 | 1¶2¶3¶4¶5¶6¶7 | 0 ok 1 groups 7 rows¶
--group-rows=7 | 1¶2¶3¶4¶5¶6¶7¶ | 0 ok 1 groups 7 rows¶
--group-rows=7 | ¶1¶2¶3¶¶4¶5¶6¶7¶¶ | 0 ok 1 groups 7 rows¶
--group-rows=8 | 1¶2¶3¶4¶5¶6¶7 | 0 ok 1 groups 7 rows¶
--group-rows=100000 | 1¶2¶3¶4¶5¶6¶7 | 0 ok 1 groups 7 rows¶
--group-rows=1 --schema={t:[int8]} | {"t":[1,2]}¶{}¶{"t":[]}¶[]¶7¶{"t":[3]}¶{"t":{}} | 0 ok 7 groups 7 rows¶
--group-rows=2 --schema={t:[int8]} | {"t":[1,2]}¶{}¶{"t":[]}¶[]¶7¶{"t":[3]}¶{"t":{}} | 0 ok 4 groups 7 rows¶
--group-rows=3 --schema={t:[int8]} | {"t":[1,2]}¶{}¶{"t":[]}¶[]¶7¶{"t":[3]}¶{"t":{}} | 0 ok 3 groups 7 rows¶
--group-rows=7 --page-bytes=1024 | 1¶2¶3¶4¶5¶6¶7 | 0 ok 1 groups 7 rows¶
--group-rows=1 | 1 | 0 ok 1 groups 1 rows¶
--group-rows=1 |  | 0 ok 0 groups 0 rows¶"#;

#[test]
fn a_group_ends_with_its_last_row(rt: HostRuntime) -> Result<(), Fail> {
    check_rows::<Groups>(rt.alloc(), GROUPS)?;
    Ok(())
}

// Checks how a check of the loaded documents ends.
fn check_groups(alloc: Global, load: &str, input: &str, wanted: &str) -> Result<(), Wrong> {
    let text = check_text(alloc, load, input)?;
    if text.as_str() == wanted {
        return Ok(());
    }
    Err(Wrong::Row(text))
}

fn check_short_rows(alloc: Global, count: usize, wanted: &str) -> Result<(), Wrong> {
    let rows = repeated(alloc, "1\n", "", count)?;
    check_groups(alloc, "load f", rows.as_str(), wanted)
}

// By default a group has 10,000 rows.
#[test]
fn a_group_has_10000_rows(rt: HostRuntime) -> Result<(), Fail> {
    check_short_rows(rt.alloc(), 10_000, "0 ok 1 groups 10000 rows¶")?;
    check_short_rows(rt.alloc(), 10_001, "0 ok 2 groups 10001 rows¶")?;
    Ok(())
}

// Equal rows, so many, a last row like them, and a short one after it.
fn long_rows(alloc: Global, row: &str, count: usize, last: &str) -> Result<String, NoMemory> {
    let mut rows = repeated(alloc, row, "", count)?;
    rows.push_str(last)?;
    rows.push_str("1\n")?;
    Ok(rows)
}

// A row with a text of so many letters.
fn text_row(alloc: Global, letters: usize) -> Result<String, NoMemory> {
    let text = repeated(alloc, "a", "", letters)?;
    Ok(format!(in alloc; "\"{text}\"\n")?)
}

// A text of 1,048,573 letters has 2^20 bytes, with its quotes and 1 for the row: so many letters are in the last of 16.
fn check_texts(alloc: Global, letters: usize, wanted: &str) -> Result<(), Wrong> {
    let row = text_row(alloc, 1_048_573)?;
    let last = text_row(alloc, letters)?;
    let rows = long_rows(alloc, row.as_str(), 15, last.as_str())?;
    check_groups(alloc, "load f", rows.as_str(), wanted)
}

// Sixteen such rows are the 16,777,216 bytes of a group. Where one of them is a letter shorter, the next row ends it.
#[test]
fn a_group_ends_where_its_texts_reach_16777216_bytes(rt: HostRuntime) -> Result<(), Fail> {
    check_texts(rt.alloc(), 1_048_573, "0 ok 2 groups 17 rows¶")?;
    check_texts(rt.alloc(), 1_048_572, "0 ok 1 groups 17 rows¶")?;
    Ok(())
}

// A row with a list of so many items.
fn list_row(alloc: Global, items: usize) -> Result<String, NoMemory> {
    let list = repeated(alloc, "1", ",", items)?;
    Ok(format!(in alloc; "[{list}]\n")?)
}

// A list of 524,287 items has an entry for the metadata, one for its value, and two for each item, which is 2^20: so many
// items are in the last of four.
fn check_lists(alloc: Global, items: usize, wanted: &str) -> Result<(), Wrong> {
    let row = list_row(alloc, 524_287)?;
    let last = list_row(alloc, items)?;
    let rows = long_rows(alloc, row.as_str(), 3, last.as_str())?;
    check_groups(alloc, "load f --schema=[int8]", rows.as_str(), wanted)
}

// Four such rows are the 4,194,304 entries of a group. Where one of them is an item shorter, the next row ends it.
#[test]
fn a_group_ends_where_its_entries_reach_4194304(rt: HostRuntime) -> Result<(), Fail> {
    check_lists(rt.alloc(), 524_287, "0 ok 2 groups 5 rows¶")?;
    check_lists(rt.alloc(), 524_286, "0 ok 1 groups 5 rows¶")?;
    Ok(())
}
