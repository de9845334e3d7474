//! Names that are kept for the next value.

ghost use Rattle.std.specs.Prelude.{◌≡◌, ◌≤◌, ◌∷◌, ◌++◌, length, map, IfOk, IfSome, OnOk, OnErr, IsTrue};
ghost use Rattle.json_tree.specs.Json.{parts_of, fields_of};
ghost use Rattle.json_tree.specs.Text.{text_of};
ghost use Rattle.json_tree.specs.View.{view, seen};
ghost use Rattle.variant_meta.specs.Written.{coded_names};
ghost use Rattle.variant_write.specs.Conditions.{HasNames, max_text_len, max_width};
ghost use Rattle.variant_write.specs.Dictionaries.{object_names, elements_names, fields_names, dictionary};

use crate::collecting::{all_names, dictionary_of};
use json_tree::Tree;
use std::alloc::Global;
use std::marker::Model;
use variant_meta::Dictionary;
use vs_bytes::{NoMemory, Text};

// For how many bytes of metadata there is room at first.
const META_ROOM: usize = 256;

/// The dictionary of a value and its metadata, with the names of all its objects as they stand there, for the next value:
/// where that has the same names in the same order, it has the same dictionary and metadata.
///
/// Contracts see the dictionary and the metadata.
#[derive(Drop)]
pub struct KnownNames {
    names: Vec<Text>,
    dictionary: Dictionary,
    // How many bytes a number of the metadata has at least.
    least: u8,
    metadata: Vec<u8>,
}

impl Model for KnownNames {
    ghost use Rattle.variant_write.specs.Known.{Named, IsKnown};

    ghost Value = { Named };

    ghost view = { λ k. record { names = k.dictionary; metadata = k.metadata.items } };

    ghost invariant = { λ k. IsKnown k.names.items k.dictionary k.least k.metadata.items };
}

impl KnownNames {
    /// Those of a value whose canonical text has at most 16 MiB. A number of the metadata has `least` bytes, or as many as
    /// it needs.
    pub fn of(alloc: Global, tree: &Tree, least: u8) -> Result<KnownNames, NoMemory>
        requires small { length (text_of (view tree.now)) ≤ max_text_len }
        requires least { 1 ≤ least }
        requires most { least ≤ max_width }
        ensures names { IfOk result (λ known. known.names ≡ dictionary (view tree.now)) }
        ensures metadata { IfOk result (λ known. known.metadata ≡ coded_names least (dictionary (view tree.now))) }
    {
        let names = all_names(alloc, tree)?;
        let dictionary = dictionary_of(alloc, tree)?;
        let mut metadata = Vec::with_capacity(alloc, META_ROOM)?;
        dictionary.write(&mut metadata, least)?;
        Ok(KnownNames {
            names,
            dictionary,
            least,
            metadata,
        })
    }

    /// Their dictionary.
    pub fn dictionary(&self) -> &Dictionary
        ensures { result.now ≡ self.now.names }
    {
        &self.dictionary
    }

    /// The bytes of their metadata.
    pub fn metadata(&self) -> &[u8]
        ensures { result.now ≡ self.now.metadata }
    {
        self.metadata.as_slice()
    }

    // Whether a value has these names in this order.
    fn stand_in(&self, tree: &Tree) -> bool
        ensures { IsTrue result → self.now.names ≡ dictionary (view tree.now) }
    {
        match after(self.names.as_slice(), tree) {
            Some(rest) => rest.is_empty(),
            None => false,
        }
    }

    /// Turns them into those of a value whose canonical text has at most 16 MiB. After an `Err` they are as before.
    #[tactic(auto, using(crate::proofs::Known::has_names))]
    pub fn renew(&mut self, alloc: Global, tree: &Tree, least: u8) -> Result<(), NoMemory>
        requires small { length (text_of (view tree.now)) ≤ max_text_len }
        requires least { 1 ≤ least }
        requires most { least ≤ max_width }
        ensures names { OnOk result (self.new.names ≡ dictionary (view tree.now)) }
        ensures metadata { OnOk result (self.new.metadata ≡ coded_names least (dictionary (view tree.now))) }
        ensures has { OnOk result (HasNames self.new.names (view tree.now)) }
        ensures err { OnErr result (self.new ≡ self.old) }
    {
        if self.least == least {
            if self.stand_in(tree) {
                return Ok(());
            }
        }
        *self = KnownNames::of(alloc, tree, least)?;
        Ok(())
    }
}

// What is left of names after those of all objects in a value, if these stand in front.
#[cycle(after)]
fn after<'a>(names: &'a [Text], tree: &Tree) -> Option<&'a [Text]>
    ensures { IfSome result (λ rest. names.now ≡ object_names (view tree.now) ++ rest.now) }
{
    match tree {
        Tree::Null => Some(names),
        Tree::Bool(_) => Some(names),
        Tree::Num(_) => Some(names),
        Tree::Text(_) => Some(names),
        Tree::Array(items) => after_elements(names, items.as_slice()),
        Tree::Object(members) => after_members(names, members.as_slice()),
    }
}

#[cycle(after)]
fn after_elements<'a>(names: &'a [Text], trees: &[Tree]) -> Option<&'a [Text]>
    ensures { IfSome result (λ rest. names.now ≡ elements_names (parts_of (map view trees.now)) ++ rest.now) }
{
    let mut left = names;
    for tree in trees {
        left = after(left, tree)?;
    }
    Some(left)
}

#[cycle(after)]
fn after_members<'a>(names: &'a [Text], pairs: &[(Text, Tree)]) -> Option<&'a [Text]>
    ensures { IfSome result (λ rest. names.now ≡ fields_names (fields_of (map seen pairs.now)) ++ rest.now) }
{
    let mut left = names;
    for pair in pairs {
        left = after(after_name(left, &pair.0)?, &pair.1)?;
    }
    Some(left)
}

// What is left of names after this one, if it stands in front.
fn after_name<'a>(names: &'a [Text], name: &Text) -> Option<&'a [Text]>
    ensures { IfSome result (λ rest. names.now ≡ name.now ∷ rest.now) }
{
    match names.split_first() {
        Some((first, rest)) => { if first == name { Some(rest) } else { None } }
        None => None,
    }
}
