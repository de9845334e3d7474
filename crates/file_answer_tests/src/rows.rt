//! The rows of a row group of a file.

ghost use Rattle.store_file.specs.Beginning.{IsUsable};

use crate::files::shelf_with;
use group_lines::RowTrees;
use json_tree::Tree;
use shelf::MemShelf;
use std::alloc::Global;
use std::process::Abort;
use std::test::Fail;
use store_file::StoreFile;
use vs_bytes::Text;

// The rows of the first row group, if there is one and it gives them.
fn first_rows(alloc: Global, shelf: &mut MemShelf, file: &StoreFile) -> Option<RowTrees>
    requires usable { IsUsable file.now }
{
    if file.groups() == 0 {
        return None;
    }
    file.rows(alloc, shelf, 0).ok()
}

fn is_absent_then_null(rows: &RowTrees) -> bool {
    match rows.as_slice() {
        [None, Some(Tree::Null)] => true,
        _ => false,
    }
}

#[test]
fn first_group_gives_its_rows(rt: HostRuntime) -> Result<(), Fail> {
    let alloc = rt.alloc();
    let mut shelf = shelf_with(alloc, "two", 99)?;
    let file = StoreFile::begin(alloc, &mut shelf, Text::from_str(alloc, "two")?, "doc")?;
    match first_rows(alloc, &mut shelf, &file) {
        Some(rows) => assert!(&rt; is_absent_then_null(&rows)),
        None => assert!(&rt; false),
    }
    assert!(&rt; shelf.touched_len() == 5);
    Ok(())
}
