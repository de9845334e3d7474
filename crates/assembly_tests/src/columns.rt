//! Columns, and masks.

ghost use Rattle.std.specs.Prelude.{◌≡◌, true, false, IfOk};
ghost use Rattle.shred_schema.specs.Views.{group_of};
ghost use Rattle.assembly_tests.specs.Columns.{one_field, texts, numbers, plain};

use shred_schema::{Column, FieldList, Mask, Node, Slot, Typed};
use sqlite_items::Boxed;
use std::alloc::Global;
use vs_bytes::{NoMemory, Prim, Text};

fn object(alloc: Global, name: &str, inside: Node) -> Result<Column, NoMemory>
    ensures optional { IfOk result (λ column. column.optional ≡ true) }
    ensures node { IfOk result (λ column. group_of column.node ≡ one_field name.now (group_of inside)) }
{
    let mut fields = FieldList::new(alloc);
    fields.push(Text::from_str(alloc, name)?, inside)?;
    Ok(Column {
        optional: true,
        node: Node {
            value: Slot::Optional,
            typed: Typed::Fields(fields),
        },
    })
}

/// The column of the schema `{t:[string]}`: five leaves.
pub(crate) fn texts(alloc: Global) -> Result<Column, NoMemory>
    ensures { IfOk result (λ column. group_of column.node ≡ texts) }
{
    let element = Node {
        value: Slot::Optional,
        typed: Typed::Prim(Prim::Text),
    };
    let list = Node {
        value: Slot::Optional,
        typed: Typed::Items(Boxed::new(alloc, element)?),
    };
    object(alloc, "t", list)
}

/// The column of the schema `{a:int64}`: four leaves.
pub(crate) fn numbers(alloc: Global) -> Result<Column, NoMemory>
    ensures { IfOk result (λ column. group_of column.node ≡ numbers) }
{
    let number = Node {
        value: Slot::Optional,
        typed: Typed::Prim(Prim::Int64),
    };
    object(alloc, "a", number)
}

/// A column without a typed part, in which each row has a value: two leaves.
pub(crate) fn plain() -> Column
    ensures { group_of result.node ≡ plain }
{
    Column {
        optional: false,
        node: Node {
            value: Slot::Required,
            typed: Typed::Free,
        },
    }
}

/// A mask: 1 for a leaf that is read.
pub(crate) fn mask_of(alloc: Global, text: &str) -> Result<Mask, NoMemory> {
    let mut mask = Mask::new(alloc);
    for byte in text.as_bytes() {
        mask.push(*byte == b'1')?;
    }
    Ok(mask)
}
