//! How deep a tree nests.

ghost use Rattle.std.specs.Prelude.{◌≡◌, ◌-◌, ◌^◌, map, min};
ghost use Rattle.json_tree.specs.Json.{depth_of, parts_depth, fields_depth, parts_of, fields_of};
ghost use Rattle.json_tree.specs.View.{view, seen};

use crate::types::Tree;
use vs_bytes::Text;

/// How deep arrays and objects nest, 0 for a value that is neither, and at most `u32::MAX`.
#[cycle(depth)]
pub fn depth(tree: &Tree) -> u32
    ensures { result ≡ min (depth_of (view tree.now)) (2 ^ 32 - 1) }
{
    match tree {
        Tree::Null => 0,
        Tree::Bool(_) => 0,
        Tree::Num(_) => 0,
        Tree::Text(_) => 0,
        Tree::Array(items) => items_depth(items.as_slice()).saturating_add(1),
        Tree::Object(members) => members_depth(members.as_slice()).saturating_add(1),
    }
}

#[cycle(depth)]
fn items_depth(trees: &[Tree]) -> u32
    ensures { result ≡ min (parts_depth (parts_of (map view trees.now))) (2 ^ 32 - 1) }
{
    let mut most: u32 = 0;
    for tree in trees {
        most = most.max(depth(tree));
    }
    most
}

#[cycle(depth)]
fn members_depth(pairs: &[(Text, Tree)]) -> u32
    ensures { result ≡ min (fields_depth (fields_of (map seen pairs.now))) (2 ^ 32 - 1) }
{
    let mut most: u32 = 0;
    for pair in pairs {
        most = most.max(depth(&pair.1));
    }
    most
}
