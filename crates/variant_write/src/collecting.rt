//! The dictionary of a value.

ghost use Rattle.std.specs.Prelude.{◌≡◌, ◌≤◌, ◌++◌, length, map, OnOk, IfOk};
ghost use Rattle.json_tree.specs.Json.{parts_of, fields_of};
ghost use Rattle.json_tree.specs.Text.{text_of};
ghost use Rattle.json_tree.specs.View.{view, seen};
ghost use Rattle.variant_write.specs.Conditions.{HasNames, max_text_len};
ghost use Rattle.variant_write.specs.Dictionaries.{object_names, elements_names, fields_names, dictionary};

use json_tree::Tree;
use std::alloc::Global;
use variant_meta::Dictionary;
use vs_bytes::{NoMemory, Text};

// The room for names that is taken at first: enough for most values, so that it need not grow.
const ROOM: usize = 16;

/// The dictionary of a value: the names of all its objects, each once, in the order of their bytes.
///
/// The canonical text of the value has at most 16 MiB.
pub fn dictionary_of(alloc: Global, tree: &Tree) -> Result<Dictionary, NoMemory>
    requires small { length (text_of (view tree.now)) ≤ max_text_len }
    ensures names { IfOk result (λ d. d ≡ dictionary (view tree.now)) }
    ensures has { IfOk result (λ d. HasNames d (view tree.now)) }
{
    let names = all_names(alloc, tree)?;
    Dictionary::from_names(names)
}

// The names of all objects in a value, each as often as it stands there.
pub(crate) fn all_names(alloc: Global, tree: &Tree) -> Result<Vec<Text>, NoMemory>
    ensures { IfOk result (λ names. names.items ≡ object_names (view tree.now)) }
{
    let mut names = Vec::with_capacity(alloc, ROOM)?;
    collect(alloc, &mut names, tree)?;
    Ok(names)
}

// Appends the names of all objects in a value.
#[cycle(collect)]
fn collect(alloc: Global, names: &mut Vec<Text>, tree: &Tree) -> Result<(), NoMemory>
    ensures { OnOk result (names.new.items ≡ names.old.items ++ object_names (view tree.now)) }
{
    match tree {
        Tree::Null => Ok(()),
        Tree::Bool(_) => Ok(()),
        Tree::Num(_) => Ok(()),
        Tree::Text(_) => Ok(()),
        Tree::Array(items) => collect_elements(alloc, names, items.as_slice()),
        Tree::Object(members) => collect_members(alloc, names, members.as_slice()),
    }
}

#[cycle(collect)]
fn collect_elements(alloc: Global, names: &mut Vec<Text>, trees: &[Tree]) -> Result<(), NoMemory>
    ensures { OnOk result (names.new.items ≡ names.old.items ++ elements_names (parts_of (map view trees.now))) }
{
    for tree in trees {
        collect(alloc, names, tree)?;
    }
    Ok(())
}

#[cycle(collect)]
fn collect_members(
    alloc: Global,
    names: &mut Vec<Text>,
    pairs: &[(Text, Tree)],
) -> Result<(), NoMemory>
    ensures { OnOk result (names.new.items ≡ names.old.items ++ fields_names (fields_of (map seen pairs.now))) }
{
    for pair in pairs {
        names.push(Text::from_str(alloc, pair.0.as_str())?)?;
        collect(alloc, names, &pair.1)?;
    }
    Ok(())
}
