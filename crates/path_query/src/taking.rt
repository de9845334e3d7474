//! The parts of a value that one step of a path keeps.

ghost use Rattle.std.specs.Prelude.{◌≡◌, map, option_map};
ghost use Rattle.json_tree.specs.View.{view};
ghost use Rattle.path_query.specs.Matches.{member, elements, element_at, list_of, parts_at};

use json_tree::Tree;
use query_tree::Step;
use std::slice;

fn member<'t>(tree: &'t Tree, name: &str) -> Option<&'t Tree>
    ensures { option_map (λ found. view found.now) result ≡ member name.now (view tree.now) }
{
    match tree {
        Tree::Object(members) => members.get(name),
        Tree::Null | Tree::Bool(_) | Tree::Num(_) | Tree::Text(_) | Tree::Array(_) => None,
    }
}

fn elements<'t>(tree: &'t Tree) -> &'t [Tree]
    ensures { map view result.now ≡ elements (view tree.now) }
{
    match tree {
        Tree::Array(items) => items.as_slice(),
        Tree::Null | Tree::Bool(_) | Tree::Num(_) | Tree::Text(_) | Tree::Object(_) => &[],
    }
}

fn element_at<'t>(tree: &'t Tree, index: u32) -> Option<&'t Tree>
    ensures { option_map (λ found. view found.now) result ≡ element_at index (view tree.now) }
{
    elements(tree).get(index as usize)
}

fn list_of<'t>(found: Option<&'t Tree>) -> &'t [Tree]
    ensures { map view result.now ≡ list_of (option_map (λ found. view found.now) found.entry) }
{
    match found {
        Some(tree) => slice::from_ref(tree),
        None => &[],
    }
}

// The parts of a value that a step keeps, in place and in order.
pub(crate) fn parts_at<'t>(step: &Step, tree: &'t Tree) -> &'t [Tree]
    ensures { map view result.now ≡ parts_at step.now (view tree.now) }
{
    match step {
        Step::Field(name) => list_of(member(tree, name.as_str())),
        Step::Index(index) => list_of(element_at(tree, *index)),
        Step::Star => elements(tree),
    }
}
