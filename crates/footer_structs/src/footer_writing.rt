//! The structs of a footer, written.

ghost use Rattle.std.specs.Prelude.{◌≡◌, ◌+◌, ◌<◌, ◌^◌, List, length, ◌++◌, OnOk, OnErr, IfOk, IfSome};
ghost use Rattle.std.specs.List.{flat_map};
ghost use Rattle.vs_bytes.specs.Outcome.{Grows};
ghost use Rattle.thrift_compact.specs.Trees.{Fields};
ghost use Rattle.thrift_compact.specs.Coded.{fields_coded};
ghost use Rattle.thrift_structs.specs.Listed.{ListFits};
ghost use Rattle.schema_elements.specs.ElementWriting.{ElementFits};
ghost use Rattle.footer_structs.specs.declared.row_groups.GroupMeta.{GroupMeta};
ghost use Rattle.footer_structs.specs.FooterWriting.{order_fields, group_fields, front_fields, back_fields, file_fields, footer_bytes, group_bytes, GroupFits, FileFits};

use crate::column_orders::OrderDraft;
use crate::file_metadata::{FileDraft, FileMeta};
use crate::row_groups::{GroupDraft, GroupMeta};
use schema_elements::{ElementDraft, EmptyDraft};
use std::alloc::Global;
use thrift_compact::{
    Binary, Int32, Int64, append_field, append_list_header, append_maybe, append_stop,
};
use thrift_structs::{ChunkDraft, ListOf, StructCode, StructOf, write_struct};
use vs_bytes::NoMemory;

impl StructCode for OrderDraft {
    type Of = i32;

    ghost fields = { order_fields };

    ghost fits = { λ _. Unit {0} };

    #[tactic(auto, using(vs_bytes::proofs::Growing::grows_on), unfolding(crate::specs::FooterWriting::order_fields))]
    fn append_fields(into: &mut Vec<u8>, value: &i32) -> Result<(), NoMemory> {
        if *value == 1 {
            append_field::<StructOf<EmptyDraft>>(into, 0, 1, &())?;
            append_stop(into, 1)
        } else {
            append_stop(into, 0)
        }
    }
}

impl StructCode for GroupDraft {
    type Of = GroupMeta;

    ghost fields = { group_fields };

    ghost fits = { GroupFits };

    #[tactic(auto, using(vs_bytes::proofs::Growing::grows_on), unfolding(crate::specs::FooterWriting::group_fields))]
    fn append_fields(into: &mut Vec<u8>, value: &GroupMeta) -> Result<(), NoMemory> {
        append_field::<ListOf<StructOf<ChunkDraft>>>(into, 0, 1, &value.columns)?;
        append_field::<Int64>(into, 1, 2, &value.total_byte_size)?;
        append_field::<Int64>(into, 2, 3, &value.num_rows)?;
        append_stop(into, 3)?;
        Ok(())
    }
}

// Fields 1 to 3.
#[tactic(auto, using(vs_bytes::proofs::Growing::grows_on), unfolding(crate::specs::FooterWriting::front_fields))]
fn append_front(into: &mut Vec<u8>, value: &FileMeta) -> Result<(), NoMemory>
    requires { ListFits ElementFits value.now.schema }
    ensures ok { OnOk result ((fs : Fields) → into.new.items ++ fields_coded 3 fs ≡ into.old.items ++ fields_coded 0 (front_fields value.now fs)) }
    ensures grows { Grows into.old.items into.new.items }
{
    append_field::<Int32>(into, 0, 1, &value.version)?;
    append_field::<ListOf<StructOf<ElementDraft>>>(into, 1, 2, &value.schema)?;
    append_field::<Int64>(into, 2, 3, &value.num_rows)
}

// Fields 6 and 7, and the stop.
#[tactic(auto, using(vs_bytes::proofs::Growing::grows_on, thrift_compact::proofs::Appended::some_always), unfolding(crate::specs::FooterWriting::back_fields))]
fn append_back(into: &mut Vec<u8>, value: &FileMeta) -> Result<(), NoMemory>
    requires { IfSome value.now.column_orders (ListFits (λ order. Unit {0})) }
    ensures ok { OnOk result (into.new.items ≡ into.old.items ++ fields_coded 4 (back_fields value.now)) }
    ensures grows { Grows into.old.items into.new.items }
{
    let last = append_maybe::<Binary>(into, 4, 6, &value.created_by)?;
    let last = append_maybe::<ListOf<StructOf<OrderDraft>>>(into, last, 7, &value.column_orders)?;
    append_stop(into, last)?;
    Ok(())
}

impl StructCode for FileDraft {
    type Of = FileMeta;

    ghost fields = { file_fields };

    ghost fits = { FileFits };

    #[tactic(auto, using(vs_bytes::proofs::Growing::grows_on), unfolding(crate::specs::FooterWriting::file_fields))]
    fn append_fields(into: &mut Vec<u8>, value: &FileMeta) -> Result<(), NoMemory> {
        append_front(into, value)?;
        append_field::<ListOf<StructOf<GroupDraft>>>(into, 3, 4, &value.row_groups)?;
        append_back(into, value)
    }
}

/// Appends the bytes of a footer. After an `Err` the output is as before.
pub fn write_footer(into: &mut Vec<u8>, meta: &FileMeta) -> Result<(), NoMemory>
    requires { FileFits meta.now }
    ensures ok { OnOk result (into.new.items ≡ into.old.items ++ footer_bytes meta.now) }
    ensures err { OnErr result (into.new.items ≡ into.old.items) }
{
    write_struct::<FileDraft>(into, meta)
}

/// Appends the bytes that a row group has in a footer. After an `Err` the output is as before.
pub fn append_group(into: &mut Vec<u8>, group: &GroupMeta) -> Result<(), NoMemory>
    requires { GroupFits group.now }
    ensures ok { OnOk result (into.new.items ≡ into.old.items ++ group_bytes group.now) }
    ensures err { OnErr result (into.new.items ≡ into.old.items) }
{
    write_struct::<GroupDraft>(into, group)
}

// The header of field 4 after field 3, a list: the short form, of delta 1 and type 9.
const GROUPS_HEADER: u8 = 0x19;

// The bytes of a footer but those of its row groups, of which there are `groups`.
#[tactic(auto, using(vs_bytes::proofs::Growing::grows_more, vs_bytes::proofs::Growing::grows_on))]
fn append_frame(into: &mut Vec<u8>, meta: &FileMeta, groups: u32) -> Result<(), NoMemory>
    requires schema { ListFits ElementFits meta.now.schema }
    requires orders { IfSome meta.now.column_orders (ListFits (λ order. Unit {0})) }
    ensures { OnOk result ((gs : List GroupMeta) → length gs ≡ groups → length into.old.items + length (footer_bytes (record meta.now { row_groups = gs })) ≡ length into.new.items + length (flat_map group_bytes gs)) }
{
    append_front(into, meta)?;
    into.push(GROUPS_HEADER)?;
    append_list_header(into, 12, groups)?;
    append_back(into, meta)?;
    Ok(())
}

/// How many bytes a footer takes with other row groups: there are `groups` of them, and they take `len` bytes. Those of
/// `meta` don't count.
pub fn footer_len(
    alloc: Global,
    meta: &FileMeta,
    groups: u32,
    len: usize,
) -> Result<usize, NoMemory>
    requires schema { ListFits ElementFits meta.now.schema }
    requires orders { IfSome meta.now.column_orders (ListFits (λ order. Unit {0})) }
    requires small { len < 2 ^ 63 }
    ensures { IfOk result (λ n. (gs : List GroupMeta) → length gs ≡ groups → length (flat_map group_bytes gs) ≡ len → n ≡ length (footer_bytes (record meta.now { row_groups = gs }))) }
{
    let mut frame = Vec::new(alloc);
    append_frame(&mut frame, meta, groups)?;
    Ok(frame.len() + len)
}
