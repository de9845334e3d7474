//! The mask of the leaves that a query needs.

ghost use Rattle.std.specs.Prelude.{◌≡◌, ◌+◌, ◌≤◌, ◌<◌, ◌^◌, ◌∷◌, length, map, Some, None, IfOk, MatchOption};
ghost use Rattle.query_tree.specs.Asked.{query_of};
ghost use Rattle.query_tree.specs.View.{steps_of, formula_of};
ghost use Rattle.shred_schema.specs.Groups.{object_of, list_of, groups_from, slot_width, width, groups_width};
ghost use Rattle.shred_schema.specs.Lawful.{IsWellFormed};
ghost use Rattle.shred_schema.specs.Views.{group_of, named};
ghost use Rattle.chunk_pruning.specs.Fields.{field_at};
ghost use Rattle.chunk_pruning.specs.Marks.{IsMarked};
ghost use Rattle.chunk_pruning.specs.Needs.{step_need, need, formula_paths, is_any_needed, is_needed, needs};

use crate::marking::{mark, mark_node, mark_value, unmarked};
use query_tree::{Filter, Path, Query, Step};
use shred_schema::{Column, Mask, Node, Slot, Typed, slot_width, width};
use std::alloc::Global;
use vs_bytes::{NoMemory, Sequence, Text};

// The field of a name, with its first leaf; the fields' leaves begin at `leaf`.
fn field_of<'n>(fields: &'n [(Text, Node)], name: &str, leaf: usize) -> Option<(&'n Node, usize)>
    requires { leaf + groups_width (groups_from (map named fields.now)) < 2 ^ 32 }
    ensures { MatchOption result (field_at name.now (groups_from (map named fields.now)) leaf ≡ None) (λ r. field_at name.now (groups_from (map named fields.now)) leaf ≡ Some (group_of r.0.now, r.1)) }
{
    let mut first = leaf;
    for k in 0..fields.len() {
        let node = &fields[k].1;
        if fields[k].0.as_bytes() == name.as_bytes() {
            return Some((node, first));
        }
        first += width(node);
    }
    None
}

// Marks what the steps need of a node, whose leaves begin at `leaf`.
#[cycle(mark)]
fn mark_path(mask: &mut [bool], node: &Node, leaf: usize, steps: &[Step])
    requires within { leaf + width (group_of node.now) ≤ length mask.old }
    requires small { length mask.old < 2 ^ 32 }
    ensures { IsMarked mask.old (need steps.now (group_of node.now) leaf) mask.new }
{
    match steps.split_first() {
        None => mark_node(mask, node, leaf),
        Some((step, others)) => mark_step(mask, node, leaf, step, others),
    }
}

#[cycle(mark)]
fn mark_step(mask: &mut [bool], node: &Node, leaf: usize, step: &Step, others: &[Step])
    requires within { leaf + width (group_of node.now) ≤ length mask.old }
    requires small { length mask.old < 2 ^ 32 }
    ensures { IsMarked mask.old (need (step.now ∷ others.now) (group_of node.now) leaf) mask.new }
{
    match &node.typed {
        Typed::Free => mark_value(mask, node.value, leaf),
        Typed::Prim(_) => mark_value(mask, node.value, leaf),
        Typed::Fields(fields) => {
            mark_object(mask, node.value, fields.as_slice(), leaf, step, others)
        }
        Typed::Items(element) => mark_list(mask, node.value, element.get(), leaf, step, others),
    }
}

#[cycle(mark)]
fn mark_object(
    mask: &mut [bool],
    value: Slot,
    fields: &[(Text, Node)],
    leaf: usize,
    step: &Step,
    others: &[Step],
)
    requires within { leaf + (slot_width value + groups_width (groups_from (map named fields.now))) ≤ length mask.old }
    requires small { length mask.old < 2 ^ 32 }
    ensures { IsMarked mask.old (λ j. step_need step.now value (object_of (groups_from (map named fields.now))) (λ n k. need others.now n k j) leaf j) mask.new }
{
    match step {
        Step::Field(name) => match field_of(fields, name.as_str(), leaf + slot_width(value)) {
            Some((node, first)) => mark_path(mask, node, first, others),
            None => mark_value(mask, value, leaf),
        },
        Step::Index(_) => mark_value(mask, value, leaf),
        Step::Star => mark_value(mask, value, leaf),
    }
}

#[cycle(mark)]
fn mark_list(
    mask: &mut [bool],
    value: Slot,
    element: &Node,
    leaf: usize,
    step: &Step,
    others: &[Step],
)
    requires within { leaf + (slot_width value + width (group_of element.now)) ≤ length mask.old }
    requires small { length mask.old < 2 ^ 32 }
    ensures { IsMarked mask.old (λ j. step_need step.now value (list_of (group_of element.now)) (λ n k. need others.now n k j) leaf j) mask.new }
{
    mark_value(mask, value, leaf);
    match step {
        Step::Field(_) => {}
        Step::Index(_) => mark_path(mask, element, leaf + slot_width(value), others),
        Step::Star => mark_path(mask, element, leaf + slot_width(value), others),
    }
}

#[cycle(mark_filter)]
fn mark_filter(mask: &mut [bool], node: &Node, filter: &Filter)
    requires within { 1 + width (group_of node.now) ≤ length mask.old }
    requires small { length mask.old < 2 ^ 32 }
    ensures { IsMarked mask.old (is_any_needed (formula_paths (formula_of filter.now)) (group_of node.now)) mask.new }
{
    match filter {
        Filter::Term { path, .. } => mark_path(mask, node, 1, path.as_slice()),
        Filter::And(f, g) => {
            mark_filter(mask, node, f.get());
            mark_filter(mask, node, g.get());
        }
        Filter::Or(f, g) => {
            mark_filter(mask, node, f.get());
            mark_filter(mask, node, g.get());
        }
        Filter::Not(f) => mark_filter(mask, node, f.get()),
    }
}

fn mark_paths(mask: &mut [bool], node: &Node, paths: &[Path])
    requires within { 1 + width (group_of node.now) ≤ length mask.old }
    requires small { length mask.old < 2 ^ 32 }
    ensures { IsMarked mask.old (is_any_needed (map steps_of paths.now) (group_of node.now)) mask.new }
{
    for path in paths {
        mark_path(mask, node, 1, path.as_slice());
    }
}

fn mark_query(mask: &mut [bool], node: &Node, query: &Query)
    requires within { 1 + width (group_of node.now) ≤ length mask.old }
    requires small { length mask.old < 2 ^ 32 }
    ensures { IsMarked mask.old (is_needed (query_of query.now) (group_of node.now)) mask.new }
{
    // The metadata.
    mark(mask, 0, 1);
    mark_paths(mask, node, query.paths.as_slice());
    match &query.filter {
        Some(filter) => mark_filter(mask, node, filter),
        None => {}
    }
}

/// The mask of the leaves that a query needs: it reads the metadata, and what the paths of the query and of its filter
/// need.
pub fn needs(alloc: Global, query: &Query, column: &Column) -> Result<Mask, NoMemory>
    requires { IsWellFormed (group_of column.now.node) }
    ensures { IfOk result (λ mask. mask ≡ needs (query_of query.now) (group_of column.now.node)) }
{
    let mut mask = unmarked(alloc, 1 + width(&column.node))?;
    mark_query(mask.as_mut_slice(), &column.node, query);
    Ok(Sequence::from_vec(mask))
}
