//! Schemas and schema paths that are written.

use file_columns::column;
use schema_elements::SchemaElement;
use shred_schema::{Column, FieldList, Node, Slot, Typed};
use sqlite_items::Boxed;
use std::alloc::Global;
use std::process::Abort;
use std::test::Fail;
use vs_bytes::{NoMemory, Prim, Text};
use written_columns::{leaf_paths, schema_elements};

fn plain() -> Column {
    Column {
        optional: true,
        node: Node {
            value: Slot::Required,
            typed: Typed::Free,
        },
    }
}

// The column of the schema {t:[decimal(9,2)]}.
fn decimals(alloc: Global) -> Result<Column, NoMemory> {
    let element = Node {
        value: Slot::Optional,
        typed: Typed::Prim(Prim::Decimal { p: 9, s: 2 }),
    };
    let list = Node {
        value: Slot::Optional,
        typed: Typed::Items(Boxed::new(alloc, element)?),
    };
    let mut fields = FieldList::new(alloc);
    fields.push(Text::from_str(alloc, "t")?, list)?;
    Ok(Column {
        optional: true,
        node: Node {
            value: Slot::Optional,
            typed: Typed::Fields(fields),
        },
    })
}

fn is_element(
    element: &SchemaElement,
    name: &str,
    kind: Option<i32>,
    repetition: Option<i32>,
    count: Option<i32>,
) -> bool {
    element.name.as_str() == name
        && element.kind == kind
        && element.repetition_type == repetition
        && element.num_children == count
}

// The elements of an empty file's footer.
#[test]
fn a_column_that_shreds_nothing_has_four_elements(rt: HostRuntime) -> Result<(), Fail> {
    let list = schema_elements(rt.alloc(), &plain(), "doc")?;
    assert!(&rt; list.len() == 4);
    assert!(&rt; is_element(list.at(0), "schema", None, None, Some(1)));
    assert!(&rt; is_element(list.at(1), "doc", None, Some(1), Some(2)));
    assert!(&rt; is_element(list.at(2), "metadata", Some(6), Some(0), None));
    assert!(&rt; is_element(list.at(3), "value", Some(6), Some(0), None));
    match &list.at(1).logical_type {
        Some(logical) => assert!(&rt; logical.member == 16 && logical.first == Some(1)),
        None => assert!(&rt; false),
    }
    Ok(())
}

#[test]
fn what_is_written_is_read(rt: HostRuntime) -> Result<(), Fail> {
    let list = schema_elements(rt.alloc(), &decimals(rt.alloc())?, "doc")?;
    assert!(&rt; list.len() == 12);
    let found = column(rt.alloc(), list.as_slice(), "doc", &[])?;
    assert!(&rt; found.leaves.len() == 5);
    assert!(&rt; found.places.as_slice() == [0usize, 1, 2, 3, 4].as_slice());
    assert!(&rt; found.leaves.at(4).prim == Prim::Decimal { p: 9, s: 2 });
    assert!(&rt; found.leaves.at(4).def == 5);
    Ok(())
}

fn is_path(path: &[vs_bytes::Bytes], names: &[&str]) -> bool {
    if path.len() != names.len() {
        return false;
    }
    for (part, name) in path.iter().zip(names) {
        if part.as_slice() != name.as_bytes() {
            return false;
        }
    }
    true
}

#[test]
fn a_path_goes_through_the_groups_of_a_list(rt: HostRuntime) -> Result<(), Fail> {
    let paths = leaf_paths(rt.alloc(), &decimals(rt.alloc())?, "doc")?;
    assert!(&rt; paths.len() == 5);
    assert!(&rt; is_path(paths.at(0).as_slice(), &["doc", "metadata"]));
    assert!(&rt;
        is_path(
            paths.at(2).as_slice(),
            &["doc", "typed_value", "t", "value"]
        )
    );
    assert!(&rt;
        is_path(
            paths.at(4).as_slice(),
            &[
                "doc",
                "typed_value",
                "t",
                "typed_value",
                "list",
                "element",
                "typed_value"
            ]
        )
    );
    Ok(())
}
