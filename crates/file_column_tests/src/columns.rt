//! Levels, places and orders of the leaves.

use crate::schemas::{read, schema};
use file_columns::{FileColumn, column};
use shred_schema::{Slot, Typed};
use std::process::Abort;
use std::test::Fail;
use vs_bytes::{Phys, Prim, Rule};

fn has_leaf(found: &FileColumn, k: usize, place: usize, rep: u16, def: u16, prim: Prim) -> bool {
    match (
        found.leaves.as_slice().get(k),
        found.places.as_slice().get(k),
    ) {
        (Some(leaf), Some(at)) => {
            *at == place && leaf.rep == rep && leaf.def == def && leaf.prim == prim
        }
        _ => false,
    }
}

// A required group of a required value, then the required metadata, with no annotation.
#[test]
fn a_foreign_column_is_read_in_any_order_of_its_members(rt: HostRuntime) -> Result<(), Fail> {
    let list = schema(
        rt.alloc(),
        &[
            (-1, "schema", -1, 1, -1),
            (0, "v", -1, 2, -1),
            (0, "value", 6, 0, -1),
            (0, "metadata", 6, 0, -1),
        ],
    )?;
    let found = read(rt.alloc(), &list)?;
    assert!(&rt; !found.column.optional);
    assert!(&rt; matches!(found.column.node.value, Slot::Required));
    assert!(&rt; matches!(found.column.node.typed, Typed::Free));
    assert!(&rt; found.leaves.len() == 2);
    assert!(&rt; has_leaf(&found, 0, 1, 0, 0, Prim::Raw));
    assert!(&rt; has_leaf(&found, 1, 0, 0, 0, Prim::Raw));
    Ok(())
}

// Another column of one leaf stands before it. Converted types: LIST 3, UTF8 0.
#[test]
fn a_list_by_its_converted_type_has_levels(rt: HostRuntime) -> Result<(), Fail> {
    let list = schema(
        rt.alloc(),
        &[
            (-1, "schema", -1, 2, -1),
            (1, "id", 1, 0, -1),
            (1, "v", -1, 3, -1),
            (1, "typed_value", -1, 1, 3),
            (2, "list", -1, 1, -1),
            (0, "element", -1, 2, -1),
            (1, "typed_value", 6, 0, 0),
            (1, "value", 6, 0, -1),
            (1, "value", 6, 0, -1),
            (0, "metadata", 6, 0, -1),
        ],
    )?;
    let found = read(rt.alloc(), &list)?;
    assert!(&rt; found.column.optional);
    assert!(&rt; matches!(found.column.node.typed, Typed::Items(_)));
    assert!(&rt; found.leaves.len() == 4);
    assert!(&rt; has_leaf(&found, 0, 4, 0, 1, Prim::Raw));
    assert!(&rt; has_leaf(&found, 1, 3, 0, 2, Prim::Raw));
    assert!(&rt; has_leaf(&found, 2, 2, 1, 4, Prim::Raw));
    assert!(&rt; has_leaf(&found, 3, 1, 1, 4, Prim::Text));
    Ok(())
}

// DOUBLE is 5, INT96 is 3, a BYTE_ARRAY annotated as JSON (19) is no text.
#[test]
fn kinds_that_are_not_read_are_refused_kinds(rt: HostRuntime) -> Result<(), Fail> {
    let list = schema(
        rt.alloc(),
        &[
            (-1, "schema", -1, 1, -1),
            (1, "v", -1, 2, -1),
            (0, "metadata", 6, 0, -1),
            (1, "typed_value", -1, 3, -1),
            (0, "a", -1, 1, -1),
            (1, "typed_value", 5, 0, -1),
            (0, "b", -1, 1, -1),
            (1, "typed_value", 3, 0, -1),
            (0, "c", -1, 1, -1),
            (1, "typed_value", 6, 0, 19),
        ],
    )?;
    let found = read(rt.alloc(), &list)?;
    assert!(&rt; found.leaves.len() == 4);
    assert!(&rt; has_leaf(&found, 1, 1, 0, 3, Prim::Refused(Rule::FloatLeftOut)));
    assert!(&rt; has_leaf(&found, 2, 2, 0, 3, Prim::Refused(Rule::KindNotRead)));
    assert!(&rt; has_leaf(&found, 3, 3, 0, 3, Prim::Refused(Rule::KindNotRead)));
    assert!(&rt; found.leaves.at(2).phys == Phys::Other);
    Ok(())
}

#[test]
fn orders_are_those_of_the_places(rt: HostRuntime) -> Result<(), Fail> {
    let list = schema(
        rt.alloc(),
        &[
            (-1, "schema", -1, 1, -1),
            (1, "v", -1, 2, -1),
            (1, "value", 6, 0, -1),
            (0, "metadata", 6, 0, -1),
        ],
    )?;
    let found = column(rt.alloc(), list.as_slice(), "v", &[1, 0])?;
    assert!(&rt; found.ordered.as_slice() == [false, true].as_slice());
    let short = column(rt.alloc(), list.as_slice(), "v", &[1])?;
    assert!(&rt; short.ordered.as_slice() == [false, true].as_slice());
    Ok(())
}

#[test]
fn of_two_columns_of_one_name_the_first_counts(rt: HostRuntime) -> Result<(), Fail> {
    let list = schema(
        rt.alloc(),
        &[
            (-1, "schema", -1, 2, -1),
            (1, "v", -1, 2, -1),
            (0, "metadata", 6, 0, -1),
            (1, "value", 6, 0, -1),
            (1, "v", 6, 0, -1),
        ],
    )?;
    let found = read(rt.alloc(), &list)?;
    assert!(&rt; found.leaves.len() == 2);
    Ok(())
}
