//! Footers that are written.

ghost use Rattle.std.specs.Prelude.{◌≡◌, ◌+◌, ◌<◌, length, IfOk, OnOk};
ghost use Rattle.std.specs.List.{All};
ghost use Rattle.thrift_structs.specs.Listed.{ListFits};
ghost use Rattle.schema_elements.specs.ElementWriting.{ElementFits};
ghost use Rattle.footer_structs.specs.FooterWriting.{GroupFits, FileFits};

use footer_structs::{
    ChunkList, FileMeta, GroupList, GroupMeta, append_group, footer_len, write_footer,
};
use schema_elements::{ElementList, Logical, SchemaElement};
use std::alloc::Global;
use std::process::Abort;
use std::test::Fail;
use test_rows::bytes_of;
use thrift_structs::ChunkMeta;
use vs_bytes::{Bytes, NoMemory, Sequence, Text};

fn root(alloc: Global) -> Result<SchemaElement, NoMemory>
    ensures { IfOk result ElementFits }
{
    Ok(SchemaElement {
        kind: None,
        type_length: None,
        repetition_type: None,
        name: Text::from_str(alloc, "schema")?,
        num_children: Some(1),
        converted_type: None,
        scale: None,
        precision: None,
        logical_type: None,
    })
}

// An optional group of two children, annotated VARIANT.
#[tactic(auto, using(crate::proofs::Fitting::variant_is))]
fn column(alloc: Global) -> Result<SchemaElement, NoMemory>
    ensures { IfOk result ElementFits }
{
    Ok(SchemaElement {
        kind: None,
        type_length: None,
        repetition_type: Some(1),
        name: Text::from_str(alloc, "doc")?,
        num_children: Some(2),
        converted_type: None,
        scale: None,
        precision: None,
        logical_type: Some(Logical {
            member: 16,
            first: Some(1),
            second: None,
        }),
    })
}

// A required leaf of BYTE_ARRAY.
fn leaf(alloc: Global, name: &str) -> Result<SchemaElement, NoMemory>
    ensures { IfOk result ElementFits }
{
    Ok(SchemaElement {
        kind: Some(6),
        type_length: None,
        repetition_type: Some(0),
        name: Text::from_str(alloc, name)?,
        num_children: None,
        converted_type: None,
        scale: None,
        precision: None,
        logical_type: None,
    })
}

#[tactic(auto, using(crate::proofs::Fitting::one_more))]
fn push(elements: &mut ElementList, element: SchemaElement) -> Result<(), NoMemory>
    requires fits { ElementFits element }
    requires all { All ElementFits elements.old }
    ensures all { OnOk result (All ElementFits elements.new) }
    ensures len { OnOk result (length elements.new ≡ length elements.old + 1) }
{
    elements.push(element)?;
    Ok(())
}

#[tactic(auto, using(crate::proofs::Fitting::none_fit))]
fn schema(alloc: Global) -> Result<ElementList, NoMemory>
    ensures { IfOk result (λ elements. ListFits ElementFits elements) }
{
    let mut elements = Sequence::new(alloc);
    push(&mut elements, root(alloc)?)?;
    push(&mut elements, column(alloc)?)?;
    push(&mut elements, leaf(alloc, "metadata")?)?;
    push(&mut elements, leaf(alloc, "value")?)?;
    Ok(elements)
}

#[tactic(auto, using(thrift_structs::proofs::Listed::plain_fit))]
fn orders(alloc: Global) -> Result<Sequence<i32>, NoMemory>
    ensures { IfOk result (λ orders. ListFits (λ order. Unit {0}) orders) }
{
    let mut orders = Sequence::new(alloc);
    orders.push(1)?;
    orders.push(1)?;
    Ok(orders)
}

#[tactic(auto, using(crate::proofs::Fitting::no_groups))]
fn no_groups(alloc: Global) -> GroupList
    ensures { ListFits GroupFits result }
{
    Sequence::new(alloc)
}

// A file without rows.
fn empty_file(alloc: Global) -> Result<FileMeta, NoMemory>
    ensures { IfOk result FileFits }
{
    Ok(FileMeta {
        version: 1,
        schema: schema(alloc)?,
        num_rows: 0,
        row_groups: no_groups(alloc),
        created_by: Some(Bytes::from_slice(alloc, b"vstore 1")?),
        column_orders: Some(orders(alloc)?),
    })
}

// The bytes of `footers`, first row.
const FOOTER: &str =
    "15 02 19 4c 48 06 73 63 68 65 6d 61 15 02 00 35 02 18 03 64 6f 63 15 04 5c 0c 20 13 01 00 00 00 15 0c 25 00 18 08 6d 65 74 61 64 61 74 61 00 15 0c 25 00 18 05 76 61 6c 75 65 00 16 00 19 0c 28 08 76 73 74 6f 72 65 20 31 19 2c 1c 00 00 1c 00 00 00";

#[test]
fn footer_without_rows_is_written(rt: HostRuntime) -> Result<(), Fail> {
    let meta = empty_file(rt.alloc())?;
    let mut bytes = Vec::new(rt.alloc());
    write_footer(&mut bytes, &meta)?;
    let wanted = bytes_of(rt.alloc(), FOOTER)?;
    assert!(&rt; bytes.as_slice() == wanted.as_slice());
    assert!(&rt; footer_len(rt.alloc(), &meta, 0, 0)? == 82);
    assert!(&rt; footer_len(rt.alloc(), &meta, 1, 10)? == 92);
    assert!(&rt; footer_len(rt.alloc(), &meta, 15, 150)? == 233);
    Ok(())
}

#[tactic(auto, using(crate::proofs::Fitting::one_chunk))]
fn group(alloc: Global) -> Result<GroupMeta, NoMemory>
    ensures { IfOk result GroupFits }
{
    let mut columns: ChunkList = Sequence::new(alloc);
    columns.push(ChunkMeta {
        file_path: None,
        file_offset: 4,
        meta_data: None,
    })?;
    Ok(GroupMeta {
        columns,
        total_byte_size: 8,
        num_rows: 2,
    })
}

#[test]
fn group_is_written(rt: HostRuntime) -> Result<(), Fail> {
    let group = group(rt.alloc())?;
    let mut bytes = Vec::new(rt.alloc());
    append_group(&mut bytes, &group)?;
    let wanted = bytes_of(rt.alloc(), "19 1c 26 08 00 16 10 16 04 00")?;
    assert!(&rt; bytes.as_slice() == wanted.as_slice());
    Ok(())
}
