//! Values as trees.

ghost use Rattle.std.specs.Prelude.{◌≡◌, ◌<◌, true, map, is_ok, Ok, Some, IfOk, length, slice_get};
ghost use Rattle.std.specs.Option.{option_map};
ghost use Rattle.json_tree.specs.Json.{parts_of, fields_of};
ghost use Rattle.json_tree.specs.View.{view, seen};
ghost use Rattle.variant_meta.specs.MetaRefs.{names_of};
ghost use Rattle.variant_meta.specs.Names.{names_rise};
ghost use Rattle.variant_read.specs.Items.{items_in, items_held, members_held, member_names};
ghost use Rattle.variant_read.specs.Layout.{is_object};
ghost use Rattle.variant_read.specs.Meaning.{container, value_within, json_in};
ghost use Rattle.variant_read.specs.View.{json_of, scalar_json};

use crate::layout::{Layout, basic_type};
use crate::scalars::{opened_primitive, opened_short_string};
use crate::views::{Scalar, ValueRef};
use json_tree::{Items, Members, Tree};
use std::alloc::Global;
use variant_meta::{MetaRef, PRIMITIVE_TYPE, SHORT_STRING_TYPE};
use vs_bytes::{NoMemory, Text, rest};

// The members of pairs whose names rise.
#[tactic(auto, using(crate::proofs::Made::members_made_of, crate::proofs::Made::not_repeated_in))]
fn in_order(pairs: Vec<(Text, Tree)>) -> Members
    requires { names_rise (member_names (map seen pairs.items)) ≡ true }
    ensures { result ≡ fields_of (map seen pairs.items) }
{
    match Members::from_pairs(pairs) {
        Ok(members) => members,
        Err(_) => unreachable!(),
    }
}

#[inline(always)]
fn scalar_tree(alloc: Global, scalar: Scalar) -> Result<Tree, NoMemory>
    ensures { IfOk result (λ tree. view tree ≡ scalar_json scalar.entry) }
{
    match scalar {
        Scalar::Null => Ok(Tree::Null),
        Scalar::Bool(truth) => Ok(Tree::Bool(truth)),
        Scalar::Num(number) => Ok(Tree::Num(number)),
        Scalar::Text(text) => Ok(Tree::Text(Text::from_str(alloc, text)?)),
    }
}

// The elements of an array that was judged.
#[cycle(owned)]
#[tactic(auto, using(crate::proofs::Made::item_turn, crate::proofs::Made::all_items, crate::proofs::Items::held_len, crate::proofs::Items::item_within, crate::proofs::Items::item_ok, crate::proofs::Items::item_listed), unfolding(crate::specs::Items::item_bytes))]
fn items(alloc: Global, meta: &MetaRef, layout: &Layout, room: u8) -> Result<Items, NoMemory>
    requires { is_ok (items_in (names_of meta.now) room layout.now.bytes.now) ≡ true }
    ensures { IfOk result (λ items. items ≡ parts_of (items_held (names_of meta.now) room layout.now.bytes.now)) }
{
    let region = layout.region();
    let mut trees = Vec::with_capacity(alloc, layout.len)?;
    for k in 0..layout.len {
        trees.push(tree_at(alloc, meta, rest(region, layout.offset(k)), room)?)?;
    }
    Ok(Items::from_vec(trees))
}

#[inline(always)]
#[tactic(auto, using(crate::proofs::Members::held_members_len, crate::proofs::Members::id_known, crate::proofs::Members::member_name_listed))]
fn name_text(
    alloc: Global,
    meta: &MetaRef,
    layout: &Layout,
    k: usize,
    room: u8,
) -> Result<Text, NoMemory>
    requires object { is_object layout.now.bytes.now ≡ true }
    requires judged { is_ok (items_in (names_of meta.now) room layout.now.bytes.now) ≡ true }
    requires inside { k < length (members_held (names_of meta.now) room layout.now.bytes.now) }
    ensures { IfOk result (λ name. option_map (λ member. member.0) (slice_get (members_held (names_of meta.now) room layout.now.bytes.now) k) ≡ Some name) }
{
    Ok(Text::from_str(alloc, meta.name(layout.field_id(k)))?)
}

// The members of an object that was judged.
#[cycle(owned)]
#[tactic(auto, using(crate::proofs::Made::member_turn, crate::proofs::Made::all_members, crate::proofs::Members::held_members_len, crate::proofs::Items::item_within, crate::proofs::Items::item_ok, crate::proofs::Items::item_listed, crate::proofs::Members::member_value_listed), unfolding(crate::specs::Items::item_bytes))]
fn members(alloc: Global, meta: &MetaRef, layout: &Layout, room: u8) -> Result<Members, NoMemory>
    requires object { is_object layout.now.bytes.now ≡ true }
    requires judged { is_ok (items_in (names_of meta.now) room layout.now.bytes.now) ≡ true }
    ensures { IfOk result (λ members. members ≡ fields_of (members_held (names_of meta.now) room layout.now.bytes.now)) }
{
    let region = layout.region();
    let mut pairs = Vec::with_capacity(alloc, layout.len)?;
    for k in 0..layout.len {
        let name = name_text(alloc, meta, layout, k, room)?;
        pairs.push((
            name,
            tree_at(alloc, meta, rest(region, layout.offset(k)), room)?,
        ))?;
    }
    Ok(in_order(pairs))
}

// The tree of an object or array that was judged.
#[cycle(owned)]
#[inline(never)]
#[tactic(auto, using(crate::proofs::Levels::container_fits, crate::proofs::Levels::container_items, crate::proofs::Levels::object_means, crate::proofs::Levels::array_means))]
fn container_tree(alloc: Global, meta: &MetaRef, bytes: &[u8], room: u8) -> Result<Tree, NoMemory>
    requires there { 0 < length bytes.now }
    requires judged { is_ok (container (names_of meta.now) (value_within (names_of meta.now) room) bytes.now) ≡ true }
    ensures { IfOk result (λ tree. json_in (container (names_of meta.now) (value_within (names_of meta.now) room) bytes.now) ≡ Ok (view tree)) }
{
    let Some(layout) = Layout::of(bytes) else {
        unreachable!()
    };
    if layout.object {
        Ok(Tree::Object(members(alloc, meta, &layout, room)?))
    } else {
        Ok(Tree::Array(items(alloc, meta, &layout, room)?))
    }
}

// The tree of bytes that mean a value.
#[cycle(owned)]
#[inline(always)]
#[tactic(auto, using(crate::proofs::Levels::some_byte, crate::proofs::Levels::level_primitive, crate::proofs::Levels::level_short, crate::proofs::Levels::level_room, crate::proofs::Levels::level_container))]
fn tree_at(alloc: Global, meta: &MetaRef, bytes: &[u8], room: u8) -> Result<Tree, NoMemory>
    requires { is_ok (value_within (names_of meta.now) room bytes.now) ≡ true }
    ensures { IfOk result (λ tree. json_in (value_within (names_of meta.now) room bytes.now) ≡ Ok (view tree)) }
{
    match basic_type(bytes) {
        PRIMITIVE_TYPE => scalar_tree(alloc, opened_primitive(bytes)),
        SHORT_STRING_TYPE => scalar_tree(alloc, Scalar::Text(opened_short_string(bytes))),
        _ => container_tree(alloc, meta, bytes, room - 1),
    }
}

/// The tree of a value. Its memory is the tree's alone.
#[tactic(auto, unfolding(crate::specs::View::elements_of, crate::specs::View::members_of))]
pub fn to_tree(alloc: Global, value: ValueRef) -> Result<Tree, NoMemory>
    ensures { IfOk result (λ tree. view tree ≡ json_of value.entry) }
{
    match value {
        ValueRef::Null => scalar_tree(alloc, Scalar::Null),
        ValueRef::Bool(truth) => scalar_tree(alloc, Scalar::Bool(truth)),
        ValueRef::Num(number) => scalar_tree(alloc, Scalar::Num(number)),
        ValueRef::Text(text) => scalar_tree(alloc, Scalar::Text(text)),
        ValueRef::Object(view) => Ok(Tree::Object(members(
            alloc,
            &view.of.meta,
            &view.of.layout,
            view.of.room,
        )?)),
        ValueRef::Array(view) => Ok(Tree::Array(items(
            alloc,
            &view.of.meta,
            &view.of.layout,
            view.of.room,
        )?)),
    }
}
