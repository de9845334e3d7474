//! What holds of every tree. These calls do nothing: what they ensure is what they are for.

ghost use Rattle.std.specs.Prelude.{map};
ghost use Rattle.json_tree.specs.Json.{parts_of, fields_of};
ghost use Rattle.json_tree.specs.Valid.{IsValid, AreValid, HoldValid};
ghost use Rattle.json_tree.specs.View.{view, seen};

use crate::types::Tree;
use vs_bytes::Text;

/// Every tree is valid: its texts and names are UTF-8, its numbers are in least scale, of 38 digits and
/// 38 places at most, and the names of each object strictly rise.
pub fn tree_is_valid(tree: &Tree)
    ensures { IsValid (view tree.now) }
{
    match tree {
        Tree::Null | Tree::Bool(_) => {}
        Tree::Num(number) => {
            let _number = *number;
        }
        Tree::Text(text) => {
            let _text = text.as_str();
        }
        Tree::Array(items) => {
            let _trees = items.as_slice();
        }
        Tree::Object(members) => {
            let _pairs = members.as_slice();
        }
    }
}

/// So is each of a list.
pub(crate) fn each_is_valid(trees: &[Tree])
    ensures { AreValid (parts_of (map view trees.now)) }
{
    for tree in trees {
        tree_is_valid(tree);
    }
}

/// So is each of pairs, and each name is UTF-8.
pub(crate) fn each_pair_is_valid(pairs: &[(Text, Tree)])
    ensures { HoldValid (fields_of (map seen pairs.now)) }
{
    for pair in pairs {
        let _name = pair.0.as_str();
        tree_is_valid(&pair.1);
    }
}
