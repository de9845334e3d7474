//! Records, node by node.

ghost use Rattle.std.specs.Prelude.{◌≡◌, ◌≤◌, length, map, None, IfOk, IfSome};
ghost use Rattle.std.specs.Option.{option_map};
ghost use Rattle.json_tree.specs.Json.{object, names_of, parts_of};
ghost use Rattle.json_tree.specs.Text.{text_of, more_parts};
ghost use Rattle.json_tree.specs.View.{view};
ghost use Rattle.variant_write.specs.Conditions.{IsWidths, HasNames, ElementsHaveNames, max_text_len};
ghost use Rattle.shred_schema.specs.Groups.{groups_from};
ghost use Rattle.shred_schema.specs.Lawful.{AllWritten, EachIn, EachField, HasValue, IsWritten};
ghost use Rattle.shred_schema.specs.Recs.{rec, recs_from};
ghost use Rattle.shred_schema.specs.Views.{group_of, kind_of, named, rec_of, part_of};
ghost use Rattle.shredder.specs.Shredded.{by_names, shredded, kind_shredded, fields_shredded, field_record, items_shredded};
ghost use Rattle.shredder.specs.Taken.{without_all};

use crate::left::{members_left, whole_left};
use crate::taking::Kept;
use json_tree::{Members, Tree};
use shred_schema::{Node, Part, Record, RecordList, Typed, fit};
use std::alloc::Global;
use variant_meta::Dictionary;
use variant_write::Widths;
use vs_bytes::{NoMemory, Text};

/// The record of a value under a node (VariantShredding.md, "Value Shredding"): what fits the node's typed part stands
/// there, and what doesn't stands in its value, in the form of `encode`. No part of the tree is copied but what is
/// written.
///
/// The dictionary has the names of the tree, and its canonical text has at most 16 MiB.
pub fn shred(
    alloc: Global,
    node: &Node,
    tree: &Tree,
    dict: &Dictionary,
    widths: Widths,
) -> Result<Record, NoMemory>
    requires node { AllWritten (group_of node.now) }
    requires names { HasNames dict.now (view tree.now) }
    requires small { length (text_of (view tree.now)) ≤ max_text_len }
    requires widths { IsWidths widths }
    ensures { IfOk result (λ made. rec_of made ≡ shredded (by_names dict.now widths) (group_of node.now) (view tree.now)) }
{
    let mut scratch = Vec::new(alloc);
    node_shredded(alloc, &mut scratch, node, tree, dict, widths)
}

// The record of a value under a node. Each value that stands in a `value` is written to `scratch` first, so that it
// takes no more memory than it has bytes.
#[cycle(shred)]
fn node_shredded(
    alloc: Global,
    scratch: &mut Vec<u8>,
    node: &Node,
    tree: &Tree,
    dict: &Dictionary,
    widths: Widths,
) -> Result<Record, NoMemory>
    requires node { AllWritten (group_of node.now) }
    requires names { HasNames dict.now (view tree.now) }
    requires small { length (text_of (view tree.now)) ≤ max_text_len }
    requires widths { IsWidths widths }
    ensures { IfOk result (λ made. rec_of made ≡ shredded (by_names dict.now widths) (group_of node.now) (view tree.now)) }
{
    typed_shredded(alloc, scratch, &node.typed, tree, dict, widths)
}

#[cycle(shred)]
fn typed_shredded(
    alloc: Global,
    scratch: &mut Vec<u8>,
    typed: &Typed,
    tree: &Tree,
    dict: &Dictionary,
    widths: Widths,
) -> Result<Record, NoMemory>
    requires node { EachIn HasValue IsWritten (kind_of typed.now) }
    requires names { HasNames dict.now (view tree.now) }
    requires small { length (text_of (view tree.now)) ≤ max_text_len }
    requires widths { IsWidths widths }
    ensures { IfOk result (λ made. rec_of made ≡ kind_shredded (by_names dict.now widths) (kind_of typed.now) (view tree.now)) }
{
    match typed {
        Typed::Free => whole_left(alloc, scratch, tree, dict, widths),
        Typed::Prim(prim) => match fit(alloc, *prim, tree)? {
            Some(cell) => Ok(typed_alone(Part::Cell(cell))),
            None => whole_left(alloc, scratch, tree, dict, widths),
        },
        Typed::Fields(fields) => match tree {
            Tree::Object(members) => {
                let fields = fields.as_slice();
                let mut kept = Kept::all(alloc, members)?;
                let records = fields_shredded(
                    alloc, scratch, &mut kept, fields, members, dict, widths,
                )?;
                let value = members_left(
                    alloc,
                    scratch,
                    members,
                    kept.members.as_slice(),
                    dict,
                    widths,
                )?;
                Ok(Record {
                    value,
                    typed: Some(Part::Fields(records)),
                })
            }
            _ => whole_left(alloc, scratch, tree, dict, widths),
        },
        Typed::Items(node) => match tree {
            Tree::Array(items) => {
                let records = items_shredded(
                    alloc,
                    scratch,
                    node.get(),
                    items.as_slice(),
                    dict,
                    widths,
                )?;
                Ok(typed_alone(Part::Items(records)))
            }
            _ => whole_left(alloc, scratch, tree, dict, widths),
        },
    }
}

// A typed part without a value.
fn typed_alone(part: Part) -> Record
    ensures { rec_of result ≡ rec None (part_of part) }
{
    Record {
        value: None,
        typed: Some(part),
    }
}

// A record for each element.
#[cycle(shred)]
#[tactic(auto, using(crate::proofs::Made::record_turn, crate::proofs::Made::records_whole))]
fn items_shredded(
    alloc: Global,
    scratch: &mut Vec<u8>,
    node: &Node,
    trees: &[Tree],
    dict: &Dictionary,
    widths: Widths,
) -> Result<RecordList, NoMemory>
    requires node { AllWritten (group_of node.now) }
    requires names { ElementsHaveNames dict.now (parts_of (map view trees.now)) }
    requires small { length (more_parts (parts_of (map view trees.now))) ≤ max_text_len }
    requires widths { IsWidths widths }
    ensures { IfOk result (λ made. recs_from (map rec_of made) ≡ items_shredded (shredded (by_names dict.now widths) (group_of node.now)) (parts_of (map view trees.now))) }
{
    let mut records = Vec::with_capacity(alloc, trees.len())?;
    for tree in trees {
        records.push(node_shredded(alloc, scratch, node, tree, dict, widths)?)?;
    }
    Ok(RecordList::from_vec(records))
}

// A record for each field, which takes its member.
#[cycle(shred)]
#[tactic(auto, using(crate::proofs::Made::record_turn, crate::proofs::Made::records_whole))]
fn fields_shredded(
    alloc: Global,
    scratch: &mut Vec<u8>,
    kept: &mut Kept,
    fields: &[(Text, Node)],
    members: &Members,
    dict: &Dictionary,
    widths: Widths,
) -> Result<RecordList, NoMemory>
    requires each { length kept.old.members.items ≡ length (names_of members.now) }
    requires nodes { EachField HasValue IsWritten (groups_from (map named fields.now)) }
    requires names { HasNames dict.now (object members.now) }
    requires small { length (text_of (object members.now)) ≤ max_text_len }
    requires widths { IsWidths widths }
    ensures made { IfOk result (λ made. recs_from (map rec_of made) ≡ fields_shredded (by_names dict.now widths) (groups_from (map named fields.now)) members.now) }
    ensures kept { IfOk result (λ made. kept.new.members.items ≡ without_all (groups_from (map named fields.now)) kept.old.members.items members.now) }
{
    let mut records = Vec::with_capacity(alloc, fields.len())?;
    for k in 0..fields.len() {
        let found = kept.take(members, &fields[k].0);
        records.push(field_record(alloc, scratch, &fields[k].1, found, dict, widths)?)?;
    }
    Ok(RecordList::from_vec(records))
}

// The record of a field: neither part where it isn't there.
#[cycle(shred)]
fn field_record(
    alloc: Global,
    scratch: &mut Vec<u8>,
    node: &Node,
    found: Option<&Tree>,
    dict: &Dictionary,
    widths: Widths,
) -> Result<Record, NoMemory>
    requires node { AllWritten (group_of node.now) }
    requires names { IfSome found (λ tree. HasNames dict.now (view tree.now)) }
    requires small { IfSome found (λ tree. length (text_of (view tree.now)) ≤ max_text_len) }
    requires widths { IsWidths widths }
    ensures { IfOk result (λ made. rec_of made ≡ field_record (shredded (by_names dict.now widths) (group_of node.now)) (option_map (λ tree. view tree.now) found.entry)) }
{
    match found {
        Some(tree) => node_shredded(alloc, scratch, node, tree, dict, widths),
        None => Ok(Record {
            value: None,
            typed: None,
        }),
    }
}
