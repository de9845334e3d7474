//! Copies of trees.

ghost use Rattle.std.specs.Prelude.{◌≡◌, map, IfOk};
ghost use Rattle.json_tree.specs.Json.{object, parts_of, fields_of};
ghost use Rattle.json_tree.specs.Valid.{IsValid};
ghost use Rattle.json_tree.specs.View.{view, seen};

use crate::types::{Items, Members, Tree};
use std::alloc::Global;
use vs_bytes::{NoMemory, Text};

/// A tree of the same value.
#[cycle(copy)]
pub fn copy(alloc: Global, tree: &Tree) -> Result<Tree, NoMemory>
    ensures { IfOk result (λ copied. view copied ≡ view tree.now) }
{
    match tree {
        Tree::Null => Ok(Tree::Null),
        Tree::Bool(truth) => Ok(Tree::Bool(*truth)),
        Tree::Num(number) => Ok(Tree::Num(*number)),
        Tree::Text(text) => Ok(Tree::Text(Text::from_str(alloc, text.as_str())?)),
        Tree::Array(items) => Ok(Tree::Array(copy_items(alloc, items.as_slice())?)),
        Tree::Object(members) => Ok(Tree::Object(copy_members(alloc, members.as_slice())?)),
    }
}

#[cycle(copy)]
fn copy_items(alloc: Global, trees: &[Tree]) -> Result<Items, NoMemory>
    ensures { IfOk result (λ items. items ≡ parts_of (map view trees.now)) }
{
    let mut copies = Vec::with_capacity(alloc, trees.len())?;
    for tree in trees {
        copies.push(copy(alloc, tree)?)?;
    }
    Ok(Items::from_vec(copies))
}

#[cycle(copy)]
fn copy_members(alloc: Global, pairs: &[(Text, Tree)]) -> Result<Members, NoMemory>
    requires { IsValid (object (fields_of (map seen pairs.now))) }
    ensures { IfOk result (λ members. members ≡ fields_of (map seen pairs.now)) }
{
    let mut copies = Vec::with_capacity(alloc, pairs.len())?;
    for pair in pairs {
        let name = Text::from_str(alloc, pair.0.as_str())?;
        copies.push((name, copy(alloc, &pair.1)?))?;
    }
    Ok(Members::from_valid(copies))
}
