//! A row group, read.

ghost use Rattle.std.specs.Prelude.{◌≡◌, true, [], ◌∷◌, length, IfOk};
ghost use Rattle.shred_schema.specs.Views.{group_of};
ghost use Rattle.store_read.specs.GroupRead.{CanRead};
ghost use Rattle.group_tests.specs.Given.{variant};

use crate::given::{METADATA, VALUES, column};
use file_columns::FileColumn;
use footer_structs::GroupMeta;
use group_lines::{RowTrees, collect_rows, print_rows};
use json_tree::Tree;
use path_query::parse_path;
use query_tree::{PathList, Query};
use shelf::MemShelf;
use shred_schema::{Mask, leaves};
use std::alloc::Global;
use std::process::Abort;
use std::test::Fail;
use store_read::read_group;
use thrift_structs::{ChunkMeta, ColumnMeta};
use vs_bytes::{Bytes, NoMemory, Sequence, Text};

// The place of the metadata's chunk, and of the values' chunk after it.
const METADATA_PLACE: i64 = 4;

const VALUES_PLACE: i64 = 34;

// The place after both chunks.
const FOOTER_PLACE: u64 = 62;

fn chunk(alloc: Global, place: i64, size: i64) -> Result<ChunkMeta, NoMemory> {
    Ok(ChunkMeta {
        file_path: None,
        file_offset: 0,
        meta_data: Some(ColumnMeta {
            kind: 6,
            encodings: Sequence::new(alloc),
            path_in_schema: Sequence::new(alloc),
            codec: 0,
            num_values: 2,
            total_uncompressed_size: size,
            total_compressed_size: size,
            data_page_offset: place,
            dictionary_page_offset: None,
            statistics: None,
        }),
    })
}

fn group(alloc: Global) -> Result<GroupMeta, NoMemory> {
    let mut columns = Sequence::new(alloc);
    columns.push(chunk(alloc, METADATA_PLACE, 30)?)?;
    columns.push(chunk(alloc, VALUES_PLACE, 28)?)?;
    Ok(GroupMeta {
        columns,
        total_byte_size: 58,
        num_rows: 2,
    })
}

fn mask(alloc: Global) -> Result<Mask, NoMemory>
    ensures { IfOk result (λ mask. mask ≡ true ∷ true ∷ []) }
{
    let mut mask = Sequence::new(alloc);
    mask.push(true)?;
    mask.push(true)?;
    Ok(mask)
}

#[tactic(auto, using(crate::proofs::TwoRows::well_formed))]
fn file_column(alloc: Global) -> Result<FileColumn, NoMemory>
    ensures node { IfOk result (λ found. group_of found.column.node ≡ variant) }
    ensures leaves { IfOk result (λ found. length found.leaves ≡ 2) }
    ensures places { IfOk result (λ found. length found.places ≡ 2) }
{
    let column = column();
    let leaves = leaves(alloc, &column)?;
    let mut places = Sequence::new(alloc);
    places.push(0)?;
    places.push(1)?;
    Ok(FileColumn {
        column,
        leaves,
        places,
        ordered: Sequence::new(alloc),
    })
}

// A shelf with a file of the magic number and both chunks.
fn shelf(alloc: Global) -> Result<MemShelf, NoMemory> {
    let mut bytes = Vec::new(alloc);
    bytes.extend_from_slice(b"PAR1")?;
    bytes.extend_from_slice(METADATA)?;
    bytes.extend_from_slice(VALUES)?;
    let mut shelf = MemShelf::new(alloc, Vec::new(alloc));
    shelf.put(Text::from_str(alloc, "f")?, bytes)?;
    Ok(shelf)
}

fn is_range(shelf: &MemShelf, k: usize, at: u64, size: u64) -> bool {
    if k < shelf.touched_len() {
        let (_, found, len) = shelf.touched_at(k);
        found == at && len == size
    } else {
        false
    }
}

// The rows of the group.
fn rows_read(
    alloc: Global,
    shelf: &mut MemShelf,
    name: &Text,
    column: &FileColumn,
    group: &GroupMeta,
    mask: &Mask,
) -> Option<RowTrees>
    requires { CanRead column.now mask.now }
{
    match read_group(alloc, shelf, name, FOOTER_PLACE, column, group, mask) {
        Ok(rows) => collect_rows(alloc, rows, &column.column, mask).ok(),
        Err(_) => None,
    }
}

// The lines of a query over them.
fn lines_read(
    alloc: Global,
    shelf: &mut MemShelf,
    name: &Text,
    column: &FileColumn,
    group: &GroupMeta,
    mask: &Mask,
    query: &Query,
) -> Vec<u8>
    requires { CanRead column.now mask.now }
{
    let mut lines = Vec::new(alloc);
    if let Ok(rows) = read_group(alloc, shelf, name, FOOTER_PLACE, column, group, mask) {
        let _printed = print_rows(alloc, &mut lines, rows, &column.column, mask, query);
    }
    lines
}

fn whole_rows(alloc: Global) -> Result<Query, Fail> {
    let mut paths = PathList::new(alloc);
    paths.push(parse_path(alloc, "$")?)?;
    Ok(Query {
        filter: None,
        paths,
    })
}

fn is_absent_then_null(rows: &RowTrees) -> bool {
    match rows.as_slice() {
        [None, Some(Tree::Null)] => true,
        _ => false,
    }
}

#[test]
#[tactic(auto, using(crate::proofs::TwoRows::can_read))]
fn both_rows_come_back(rt: HostRuntime) -> Result<(), Fail> {
    let alloc = rt.alloc();
    let mut shelf = shelf(alloc)?;
    let name = Text::from_str(alloc, "f")?;
    let column = file_column(alloc)?;
    let group = group(alloc)?;
    let mask = mask(alloc)?;
    match rows_read(alloc, &mut shelf, &name, &column, &group, &mask) {
        Some(rows) => assert!(&rt; is_absent_then_null(&rows)),
        None => assert!(&rt; false),
    }
    assert!(&rt; is_range(&shelf, 0, 4, 30));
    assert!(&rt; is_range(&shelf, 1, 34, 28));
    Ok(())
}

// An absent row has no match.
#[test]
#[tactic(auto, using(crate::proofs::TwoRows::can_read))]
fn each_row_has_a_line(rt: HostRuntime) -> Result<(), Fail> {
    let alloc = rt.alloc();
    let mut shelf = shelf(alloc)?;
    let name = Text::from_str(alloc, "f")?;
    let column = file_column(alloc)?;
    let group = group(alloc)?;
    let mask = mask(alloc)?;
    let query = whole_rows(alloc)?;
    let lines = lines_read(alloc, &mut shelf, &name, &column, &group, &mask, &query);
    assert!(&rt; lines.as_slice() == b"{}\n{\"$\":null}\n".as_slice());
    Ok(())
}
