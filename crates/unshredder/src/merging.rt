//! The value and the typed part of one node.

ghost use Rattle.std.specs.Prelude.{◌≡◌, ◌<◌, ◌≤◌, ◌++◌, true, false, length, map, drop, slice_get, Some, IfOk, OnOk};
ghost use Rattle.std.specs.Option.{option_map};
ghost use Rattle.json_tree.specs.View.{view, seen};
ghost use Rattle.vs_bytes.specs.Names.{repeats};
ghost use Rattle.vs_bytes.specs.Outcome.{Gives, Makes};
ghost use Rattle.variant_meta.specs.MetaRefs.{names_of};
ghost use Rattle.variant_read.specs.Meaning.{max_nesting};
ghost use Rattle.variant_read.specs.Trees.{object_of};
ghost use Rattle.exact_num.specs.NumberOf.{decimal_of};
ghost use Rattle.json_tree.specs.Json.{number, fields_of};
ghost use Rattle.variant_read.specs.View.{json_of, members_of};
ghost use Rattle.shred_schema.specs.Cells.{is_of_prim};
ghost use Rattle.shred_schema.specs.Lawful.{MayHold};
ghost use Rattle.shred_schema.specs.Fits.{tree_of};
ghost use Rattle.shred_schema.specs.Groups.{groups_from};
ghost use Rattle.shred_schema.specs.Views.{named};
ghost use Rattle.unshredder.specs.Merging.{with_cell, is_in_both, left_over, member, without_fields};
ghost use Rattle.unshredder.specs.Seen.{value_seen};

use json_tree::{Number, Tree};
use shred_schema::{Node, tree_of};
use std::alloc::Global;
use variant_meta::MetaRef;
use variant_read::{ObjectView, ValueRef, to_tree, view};
use vs_bytes::{Bytes, Cell, NoMemory, Prim, Refusal, Rule, Text};

// The value, in place, where it is read and there.
pub(crate) fn value_seen<'a>(
    meta: MetaRef<'a>,
    above: u8,
    read: bool,
    value: &'a Option<Bytes>,
) -> Result<Option<ValueRef<'a>>, Rule>
    requires { above ≤ max_nesting }
    ensures { Gives (option_map json_of) result (value_seen (names_of meta.entry) above read value.now) }
{
    match value {
        Some(bytes) if read => match view(meta, bytes.as_slice(), above) {
            Ok(value) => Ok(Some(value)),
            Err(rule) => Err(rule),
        },
        _ => Ok(None),
    }
}

// The value as a tree.
pub(crate) fn whole(alloc: Global, value: Option<ValueRef>) -> Result<Option<Tree>, NoMemory>
    ensures { IfOk result (λ tree. option_map view tree ≡ option_map json_of value.entry) }
{
    match value {
        Some(value) => Ok(Some(to_tree(alloc, value)?)),
        None => Ok(None),
    }
}

// A cell, beside which no value may stand.
pub(crate) fn with_cell(
    alloc: Global,
    value: Option<ValueRef>,
    prim: Prim,
    cell: &Cell,
) -> Result<Option<Tree>, Refusal>
    requires kind { MayHold prim }
    requires cell { is_of_prim prim cell.now ≡ true }
    ensures { Makes (option_map view) result (with_cell (option_map json_of value.entry) (tree_of prim cell.now)) }
{
    match value {
        Some(_) => Err(Refusal::Fault(Rule::BothPresent)),
        None => Ok(Some(tree_of(alloc, prim, cell)?)),
    }
}

// The value of an object whose typed part is missing.
pub(crate) fn without_fields(
    alloc: Global,
    value: Option<ValueRef>,
) -> Result<Option<Tree>, Refusal>
    ensures { Makes (option_map view) result (without_fields (option_map json_of value.entry)) }
{
    match value {
        Some(ValueRef::Object(_)) => Err(Refusal::Fault(Rule::ObjectWithoutTyped)),
        value => Ok(whole(alloc, value)?),
    }
}

// Whether the value has a member of a field's name.
#[tactic(auto, using(crate::proofs::Fields::field_found, crate::proofs::Fields::field_absent, crate::proofs::Fields::all_absent))]
fn is_in_both(fields: &[(Text, Node)], object: &ObjectView) -> bool
    ensures { result ≡ is_in_both (groups_from (map named fields.now)) (fields_of (members_of object.now)) }
{
    for field in fields {
        if let Some(_) = object.get(field.0.as_str()) {
            return true;
        }
    }
    false
}

// The members of an object, as names and trees.
#[tactic(auto, using(variant_read::proofs::Made::member_turn, variant_read::proofs::Made::all_members, crate::proofs::Members::differ_in))]
fn pairs(alloc: Global, object: &ObjectView) -> Result<Vec<(Text, Tree)>, NoMemory>
    ensures pairs { IfOk result (λ pairs. map seen pairs.items ≡ members_of object.now) }
    ensures differ { IfOk result (λ pairs. repeats (map (λ pair. pair.0) pairs.items) ≡ false) }
{
    let mut pairs = Vec::with_capacity(alloc, object.len())?;
    for k in 0..object.len() {
        let name = Text::from_str(alloc, object.name(k))?;
        pairs.push((name, to_tree(alloc, object.item(k))?))?;
    }
    object.names_rise();
    Ok(pairs)
}

// The members that the value of a partial object has.
#[tactic(auto, using(crate::proofs::Members::pairs_back))]
pub(crate) fn left_over(
    alloc: Global,
    fields: &[(Text, Node)],
    value: Option<ValueRef>,
) -> Result<Vec<(Text, Tree)>, Refusal>
    ensures exact { Makes (λ pairs. map seen pairs.items) result (left_over (groups_from (map named fields.now)) (option_map json_of value.entry)) }
    ensures differ { IfOk result (λ pairs. repeats (map (λ pair. pair.0) pairs.items) ≡ false) }
{
    match value {
        None => Ok(Vec::new(alloc)),
        Some(ValueRef::Object(object)) => {
            if is_in_both(fields, &object) {
                return Err(Refusal::Fault(Rule::FieldInBoth));
            }
            Ok(pairs(alloc, &object)?)
        }
        Some(_) => Err(Refusal::Fault(Rule::PartialNotObject)),
    }
}

// Puts a field's number after the members. The pair is made where it stays, since a tree that is handed on is copied.
#[inline(always)]
pub(crate) fn put_number(
    alloc: Global,
    name: &Text,
    whole: Number,
    pairs: &mut Vec<(Text, Tree)>,
) -> Result<(), NoMemory>
    ensures { OnOk result (map seen pairs.new.items ≡ map seen pairs.old.items ++ member name.now (Some (number (decimal_of whole)))) }
{
    pairs.reserve(1)?;
    let name = Text::from_str(alloc, name.as_str())?;
    pairs.push_reserved((name, Tree::Num(whole)));
    Ok(())
}

// Puts a field that isn't missing after the members.
#[inline(always)]
pub(crate) fn put_member(
    alloc: Global,
    name: &Text,
    value: Option<Tree>,
    pairs: &mut Vec<(Text, Tree)>,
) -> Result<(), NoMemory>
    ensures { OnOk result (map seen pairs.new.items ≡ map seen pairs.old.items ++ member name.now (option_map view value)) }
{
    if let Some(tree) = value {
        let name = Text::from_str(alloc, name.as_str())?;
        pairs.reserve(1)?;
        pairs.push_reserved((name, tree));
    }
    Ok(())
}
