//! Values, written.

ghost use Rattle.std.specs.Prelude.{◌≡◌, ◌≤◌, ◌++◌, length, map, drop, OnOk, OnErr};
ghost use Rattle.std.specs.List.{concat};
ghost use Rattle.json_tree.specs.Json.{array, object, parts_of, fields_of};
ghost use Rattle.json_tree.specs.Text.{text_of, more_parts, more_fields};
ghost use Rattle.json_tree.specs.View.{view, seen};
ghost use Rattle.vs_bytes.specs.Outcome.{Grows};
ghost use Rattle.variant_meta.specs.Written.{ends_from};
ghost use Rattle.variant_write.specs.Coded.{coded, elements_coded, values_coded};
ghost use Rattle.variant_write.specs.Conditions.{IsWidths, HasNames, ElementsHaveNames, FieldsHaveNames, max_text_len};

use crate::composing::{compose_array, compose_object};
use crate::field_ids::append_ids;
use crate::primitives::{append_bool, append_decimal_number, append_null, append_text};
use crate::widths::Widths;
use json_tree::Tree;
use variant_meta::Dictionary;
use vs_bytes::{NoMemory, Text, rest};

// The room that is taken at first: enough for most values, so that it need not grow.
pub(crate) const SPARE_ROOM: usize = 256;

pub(crate) const ENDS_ROOM: usize = 64;

/// Appends the bytes of a value (VariantEncoding.md, "Value encoding"). Its objects cite their names by the places
/// in `dict`.
///
/// A whole number takes the narrowest of int8 to int64, or else decimal16; a fraction the narrowest of decimal4 to
/// decimal16; a text of at most 63 bytes is a short string. The offsets of an array or object have at least
/// `widths.offset` bytes, the ids at least `widths.id`, and each as many as its greatest number needs. Items lie in
/// order, without gaps.
///
/// The canonical text of the value has at most 16 MiB. After an `Err` the bytes are as before.
pub fn encode(
    into: &mut Vec<u8>,
    dict: &Dictionary,
    tree: &Tree,
    widths: Widths,
) -> Result<(), NoMemory>
    requires names { HasNames dict.now (view tree.now) }
    requires small { length (text_of (view tree.now)) ≤ max_text_len }
    requires widths { IsWidths widths }
    ensures ok { OnOk result (into.new.items ≡ into.old.items ++ coded dict.now (view tree.now) widths) }
    ensures err { OnErr result (into.new.items ≡ into.old.items) }
{
    let before = into.len();
    let done = append_value(into, dict, tree, widths);
    if done.is_err() {
        into.truncate(before);
    }
    done
}

fn append_value(
    into: &mut Vec<u8>,
    dict: &Dictionary,
    tree: &Tree,
    widths: Widths,
) -> Result<(), NoMemory>
    requires names { HasNames dict.now (view tree.now) }
    requires small { length (text_of (view tree.now)) ≤ max_text_len }
    requires widths { IsWidths widths }
    ensures ok { OnOk result (into.new.items ≡ into.old.items ++ coded dict.now (view tree.now) widths) }
    ensures grows { Grows into.old.items into.new.items }
{
    let alloc = *into.allocator();
    let (spare_room, ends_room) = room(tree);
    let mut spare = Vec::with_capacity(alloc, spare_room)?;
    let mut ends = Vec::with_capacity(alloc, ends_room)?;
    append(into, &mut spare, &mut ends, dict, tree, widths)
}

// The room for items and their ends. A value that holds no others needs none.
fn room(tree: &Tree) -> (usize, usize) {
    match tree {
        Tree::Array(_) => (SPARE_ROOM, ENDS_ROOM),
        Tree::Object(_) => (SPARE_ROOM, ENDS_ROOM),
        _ => (0, 0),
    }
}

/// The ends from the place `first` on.
pub(crate) fn since(ends: &[u32], first: usize) -> &[u32]
    requires { first ≤ length ends.now }
    ensures { result.now ≡ drop first ends.now }
{
    ends.split_at(first).1
}

/// Appends the bytes of a value. After an `Ok` `spare` and `ends` are as before.
///
/// The items of an array or object are written to `spare`, and where they end to `ends`, after what is there of those
/// around it. The two buffers change places at each level. After an `Err` they have grown.
#[cycle(append)]
#[tactic(auto, unfolding(crate::specs::Coded::coded))]
pub(crate) fn append(
    into: &mut Vec<u8>,
    spare: &mut Vec<u8>,
    ends: &mut Vec<u32>,
    dict: &Dictionary,
    tree: &Tree,
    widths: Widths,
) -> Result<(), NoMemory>
    requires names { HasNames dict.now (view tree.now) }
    requires small { length (text_of (view tree.now)) ≤ max_text_len }
    requires widths { IsWidths widths }
    ensures ok { OnOk result (into.new.items ≡ into.old.items ++ coded dict.now (view tree.now) widths) }
    ensures spare { OnOk result (spare.new.items ≡ spare.old.items) }
    ensures ends { OnOk result (ends.new.items ≡ ends.old.items) }
    ensures grows { Grows into.old.items into.new.items }
    ensures spare_grows { Grows spare.old.items spare.new.items }
{
    match tree {
        Tree::Null => append_null(into),
        Tree::Bool(truth) => append_bool(into, *truth),
        Tree::Num(number) => append_decimal_number(into, *number),
        Tree::Text(text) => append_text(into, text.as_bytes()),
        Tree::Array(items) => append_array(into, spare, ends, dict, items.as_slice(), widths),
        Tree::Object(members) => append_object(into, spare, ends, dict, members.as_slice(), widths),
    }
}

#[cycle(append)]
fn append_array(
    into: &mut Vec<u8>,
    spare: &mut Vec<u8>,
    ends: &mut Vec<u32>,
    dict: &Dictionary,
    trees: &[Tree],
    widths: Widths,
) -> Result<(), NoMemory>
    requires names { ElementsHaveNames dict.now (parts_of (map view trees.now)) }
    requires small { length (more_parts (parts_of (map view trees.now))) ≤ max_text_len }
    requires widths { IsWidths widths }
    ensures ok { OnOk result (into.new.items ≡ into.old.items ++ coded dict.now (array (parts_of (map view trees.now))) widths) }
    ensures spare { OnOk result (spare.new.items ≡ spare.old.items) }
    ensures ends { OnOk result (ends.new.items ≡ ends.old.items) }
    ensures grows { Grows into.old.items into.new.items }
    ensures spare_grows { Grows spare.old.items spare.new.items }
{
    let start = spare.len();
    let first = ends.len();
    append_elements(spare, into, ends, dict, trees, widths)?;
    let items = rest(spare.as_slice(), start);
    compose_array(into, since(ends.as_slice(), first), items, widths)?;
    spare.truncate(start);
    ends.truncate(first);
    Ok(())
}

#[cycle(append)]
fn append_elements(
    into: &mut Vec<u8>,
    spare: &mut Vec<u8>,
    ends: &mut Vec<u32>,
    dict: &Dictionary,
    trees: &[Tree],
    widths: Widths,
) -> Result<(), NoMemory>
    requires names { ElementsHaveNames dict.now (parts_of (map view trees.now)) }
    requires small { length (more_parts (parts_of (map view trees.now))) ≤ max_text_len }
    requires widths { IsWidths widths }
    ensures ok { OnOk result (into.new.items ≡ into.old.items ++ concat (elements_coded dict.now (parts_of (map view trees.now)) widths)) }
    ensures spare { OnOk result (spare.new.items ≡ spare.old.items) }
    ensures ends { OnOk result (ends.new.items ≡ ends.old.items ++ ends_from 0 (elements_coded dict.now (parts_of (map view trees.now)) widths)) }
    ensures grows { Grows into.old.items into.new.items }
    ensures spare_grows { Grows spare.old.items spare.new.items }
{
    let start = into.len();
    for tree in trees {
        append(into, spare, ends, dict, tree, widths)?;
        ends.push((into.len() - start) as u32)?;
    }
    Ok(())
}

#[cycle(append)]
fn append_object(
    into: &mut Vec<u8>,
    spare: &mut Vec<u8>,
    ends: &mut Vec<u32>,
    dict: &Dictionary,
    pairs: &[(Text, Tree)],
    widths: Widths,
) -> Result<(), NoMemory>
    requires names { FieldsHaveNames dict.now (fields_of (map seen pairs.now)) }
    requires small { length (more_fields (fields_of (map seen pairs.now))) ≤ max_text_len }
    requires widths { IsWidths widths }
    ensures ok { OnOk result (into.new.items ≡ into.old.items ++ coded dict.now (object (fields_of (map seen pairs.now))) widths) }
    ensures spare { OnOk result (spare.new.items ≡ spare.old.items) }
    ensures ends { OnOk result (ends.new.items ≡ ends.old.items) }
    ensures grows { Grows into.old.items into.new.items }
    ensures spare_grows { Grows spare.old.items spare.new.items }
{
    let start = spare.len();
    let first = ends.len();
    append_values(spare, into, ends, dict, pairs, widths)?;
    let middle = ends.len();
    append_ids(ends, dict, pairs)?;
    let (open, ids) = ends.as_slice().split_at(middle);
    let values = rest(spare.as_slice(), start);
    compose_object(into, ids, since(open, first), values, widths)?;
    spare.truncate(start);
    ends.truncate(first);
    Ok(())
}

#[cycle(append)]
fn append_values(
    into: &mut Vec<u8>,
    spare: &mut Vec<u8>,
    ends: &mut Vec<u32>,
    dict: &Dictionary,
    pairs: &[(Text, Tree)],
    widths: Widths,
) -> Result<(), NoMemory>
    requires names { FieldsHaveNames dict.now (fields_of (map seen pairs.now)) }
    requires small { length (more_fields (fields_of (map seen pairs.now))) ≤ max_text_len }
    requires widths { IsWidths widths }
    ensures ok { OnOk result (into.new.items ≡ into.old.items ++ concat (values_coded dict.now (fields_of (map seen pairs.now)) widths)) }
    ensures spare { OnOk result (spare.new.items ≡ spare.old.items) }
    ensures ends { OnOk result (ends.new.items ≡ ends.old.items ++ ends_from 0 (values_coded dict.now (fields_of (map seen pairs.now)) widths)) }
    ensures grows { Grows into.old.items into.new.items }
    ensures spare_grows { Grows spare.old.items spare.new.items }
{
    let start = into.len();
    for pair in pairs {
        append(into, spare, ends, dict, &pair.1, widths)?;
        ends.push((into.len() - start) as u32)?;
    }
    Ok(())
}
