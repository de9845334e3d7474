//! The leaf columns of a column.

ghost use Rattle.std.specs.Prelude.{◌≡◌, IfOk};
ghost use Rattle.shred_schema.specs.Views.{group_of};
ghost use Rattle.shredding_tests.specs.Texts.{texts};

use shred_schema::{Column, FieldList, Node, Slot, Typed, leaves, project, width};
use sqlite_items::Boxed;
use std::alloc::Global;
use std::process::Abort;
use std::test::Fail;
use vs_bytes::{Leaf, NoMemory, Prim, Text};

// The column of the schema {t:[string]}.
fn column(alloc: Global) -> Result<Column, NoMemory>
    ensures { IfOk result (λ column. group_of column.node ≡ texts) }
{
    let element = Node {
        value: Slot::Optional,
        typed: Typed::Prim(Prim::Text),
    };
    let list = Node {
        value: Slot::Optional,
        typed: Typed::Items(Boxed::new(alloc, element)?),
    };
    let mut fields = FieldList::new(alloc);
    fields.push(Text::from_str(alloc, "t")?, list)?;
    Ok(Column {
        optional: true,
        node: Node {
            value: Slot::Optional,
            typed: Typed::Fields(fields),
        },
    })
}

fn has_levels(leaf: &Leaf, rep: u16, def: u16) -> bool {
    leaf.rep == rep && leaf.def == def
}

// The metadata, the value, the value of t, and an element's value and text.
#[test]
fn a_list_of_texts_has_five_leaves(rt: HostRuntime) -> Result<(), Fail> {
    let column = column(rt.alloc())?;
    assert!(&rt; width(&column.node) == 4);
    let leaves = leaves(rt.alloc(), &column)?;
    assert!(&rt; leaves.len() == 5);
    assert!(&rt; has_levels(leaves.at(0), 0, 1));
    assert!(&rt; has_levels(leaves.at(1), 0, 2));
    assert!(&rt; has_levels(leaves.at(2), 0, 3));
    assert!(&rt; has_levels(leaves.at(3), 1, 5));
    assert!(&rt; has_levels(leaves.at(4), 1, 5));
    assert!(&rt; leaves.at(4).prim == Prim::Text);
    Ok(())
}

// Of the five leaves the text of an element alone is read.
#[test]
fn a_projection_has_the_leaves_that_are_read(rt: HostRuntime) -> Result<(), Fail> {
    let column = column(rt.alloc())?;
    let kept = project(
        rt.alloc(),
        &column.node,
        1,
        &[false, false, false, false, true],
    )?;
    assert!(&rt; matches!(kept.value, Slot::Absent));
    assert!(&rt; matches!(kept.typed, Typed::Fields(_)));
    assert!(&rt; width(&kept) == 1);
    Ok(())
}
