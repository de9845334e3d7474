//! The entries of rows in the column of the schema `{t:[string]}`.

ghost use Rattle.std.specs.Prelude.{◌≡◌, true, [], ◌∷◌, map, None, IfOk};
ghost use Rattle.shred_schema.specs.Recs.{rec, empty, absent, present};
ghost use Rattle.shred_schema.specs.Views.{group_of, row_rec_of};
ghost use Rattle.striping_tests.specs.Texts.{texts};

use level_striping::{entries_of_row, stripe};
use shred_schema::{Column, FieldList, Node, Record, RowList, RowRecord, Slot, Typed};
use sqlite_items::Boxed;
use std::alloc::Global;
use std::process::Abort;
use std::test::Fail;
use vs_bytes::{Bytes, EntryList, NoMemory, Prim, Text};

fn column(alloc: Global) -> Result<Column, NoMemory>
    ensures optional { IfOk result (λ column. column.optional ≡ true) }
    ensures node { IfOk result (λ column. group_of column.node ≡ texts) }
{
    let element = Node {
        value: Slot::Optional,
        typed: Typed::Prim(Prim::Text),
    };
    let list = Node {
        value: Slot::Optional,
        typed: Typed::Items(Boxed::new(alloc, element)?),
    };
    let mut fields = FieldList::new(alloc);
    fields.push(Text::from_str(alloc, "t")?, list)?;
    Ok(Column {
        optional: true,
        node: Node {
            value: Slot::Optional,
            typed: Typed::Fields(fields),
        },
    })
}

// An absent row, and one with nothing but metadata.
fn rows(alloc: Global) -> Result<RowList, NoMemory>
    ensures { IfOk result (λ rows. map row_rec_of rows ≡ absent ∷ present (17 ∷ 0 ∷ 0 ∷ []) (rec None empty) ∷ []) }
{
    let mut rows = RowList::new(alloc);
    rows.push(RowRecord::Absent)?;
    rows.push(RowRecord::Present {
        meta: Bytes::from_slice(alloc, &[17, 0, 0])?,
        rec: Record {
            value: None,
            typed: None,
        },
    })?;
    Ok(rows)
}

fn has_levels(list: &EntryList, k: usize, rep: u16, def: u16) -> bool {
    match list.as_slice().get(k) {
        Some(entry) => entry.rep == rep && entry.def == def,
        None => false,
    }
}

// Each of the five leaves has an entry for each row.
#[test]
fn each_row_has_an_entry_in_each_leaf(rt: HostRuntime) -> Result<(), Fail> {
    let column = column(rt.alloc())?;
    let rows = rows(rt.alloc())?;
    let leaves = stripe(rt.alloc(), &column, &rows)?;
    assert!(&rt; leaves.len() == 5);
    for list in leaves.as_slice() {
        assert!(&rt; list.len() == 2);
        assert!(&rt; has_levels(list, 0, 0, 0));
        assert!(&rt; has_levels(list, 1, 0, 1));
    }
    Ok(())
}

#[test]
fn an_absent_row_has_five_entries(rt: HostRuntime) -> Result<(), Fail> {
    let column = column(rt.alloc())?;
    assert!(&rt; entries_of_row(&column, &RowRecord::Absent) == 5);
    Ok(())
}
