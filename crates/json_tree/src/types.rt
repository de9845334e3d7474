//! The tree of a JSON value (RFC 8259, section 3).

ghost use Rattle.std.specs.Prelude.{◌≡◌, ◌==◌, ◌<◌, ◌++◌, ◌∷◌, [], ◌↔◌, map, length, IfOk, OnOk, OnErr, IsErrOf, IsTrue, slice_get, Some};
ghost use Rattle.std.specs.Option.{option_map};
ghost use Rattle.vs_bytes.specs.Names.{repeats};
ghost use Rattle.json_tree.specs.Json.{array, object, no_parts, parts_of, fields_of, items_of, names_of, values_of};
ghost use Rattle.json_tree.specs.Order.{NamesRise, sorted, member_of};
ghost use Rattle.json_tree.specs.Valid.{IsValid};
ghost use Rattle.json_tree.specs.View.{view, seen};

use crate::name_order::{against_name, put_in_order};
use crate::validity::{each_is_valid, each_pair_is_valid, tree_is_valid};
use exact_num::Number;
use std::alloc::Global;
use std::marker::Model;
use vs_bytes::{NoMemory, Text};

/// A JSON value.
#[cycle(tree)]
#[derive(Drop)]
pub enum Tree {
    Null,
    Bool(bool),
    Num(Number),
    Text(Text),
    Array(Items),
    Object(Members),
}

/// The items of an array, in order. Contracts see them as their values, each of which is valid.
#[cycle(tree)]
#[derive(Drop)]
pub struct Items {
    trees: Vec<Tree>,
}

/// The members of an object, in the order of their names. Contracts see them as names and values, each
/// of which is valid.
#[cycle(tree)]
#[derive(Drop)]
pub struct Members {
    pairs: Vec<(Text, Tree)>,
}

impl Model for Items {
    ghost use Rattle.json_tree.specs.Json.{Parts, array, parts_of, parts_depth};
    ghost use Rattle.json_tree.specs.Codes.{parts_code};

    ghost Value = { Parts };

    ghost coded = { parts_code };

    ghost use Rattle.std.specs.Prelude.{map};
    ghost use Rattle.json_tree.specs.Valid.{IsValid};
    ghost use Rattle.json_tree.specs.View.{view as json_of};

    ghost view = { λ items. parts_of (map json_of items.trees.items) };

    ghost invariant = { λ items. IsValid (array (parts_of (map json_of items.trees.items))) };

    ghost size = { parts_depth };

    ghost use Rattle.std.proofs.Common.{arith};
    ghost use Rattle.json_tree.specs.Inside.{items_inside};

    ghost size_decreases = { λ items h. omega (arith, items_inside items.trees.items) };
}

impl Model for Members {
    ghost use Rattle.json_tree.specs.Json.{Fields, object, fields_of, fields_depth};
    ghost use Rattle.json_tree.specs.Codes.{fields_code};

    ghost Value = { Fields };

    ghost coded = { fields_code };

    ghost use Rattle.std.specs.Prelude.{map};
    ghost use Rattle.json_tree.specs.Valid.{IsValid};
    ghost use Rattle.json_tree.specs.View.{seen};

    ghost view = { λ members. fields_of (map seen members.pairs.items) };

    ghost invariant = { λ members. IsValid (object (fields_of (map seen members.pairs.items))) };

    ghost size = { fields_depth };

    ghost use Rattle.json_tree.specs.Inside.{members_inside};

    ghost size_decreases = { λ members h. members_inside members };
}

/// Why pairs are no object's members: two names are equal.
#[derive(Clone, Copy, PartialEq, Eq, Debug)]
pub enum MembersFault {
    Repeated,
}

impl Items {
    /// No items.
    pub fn new(alloc: Global) -> Items
        ensures { result ≡ no_parts }
    {
        Items {
            trees: Vec::new(alloc),
        }
    }

    /// The items of a vector, which it takes over. It takes no memory.
    pub fn from_vec(trees: Vec<Tree>) -> Items
        ensures { result ≡ parts_of (map view trees.items) }
    {
        each_is_valid(trees.as_slice());
        Items { trees }
    }

    /// Puts one more item at the end. After an `Err` the items are as before.
    pub fn push(&mut self, tree: Tree) -> Result<(), NoMemory>
        ensures ok { OnOk result (items_of self.new ≡ items_of self.old ++ view tree ∷ []) }
        ensures err { OnErr result (self.new ≡ self.old) }
    {
        tree_is_valid(&tree);
        self.trees.push(tree)?;
        Ok(())
    }

    /// How many items there are.
    pub fn len(&self) -> usize
        ensures { result ≡ length (items_of self.now) }
    {
        self.as_slice().len()
    }

    /// Whether there are none.
    pub fn is_empty(&self) -> bool
        ensures { result ≡ (length (items_of self.now) == 0) }
    {
        self.len() == 0
    }

    /// The item at `i`, counted from 0.
    pub fn at(&self, i: usize) -> &Tree
        requires { i < length (items_of self.now) }
        ensures { slice_get (items_of self.now) i ≡ Some (view result.now) }
    {
        let trees = self.as_slice();
        &trees[i]
    }

    /// The items in place.
    pub fn as_slice(&self) -> &[Tree]
        ensures seen { self.now ≡ parts_of (map view result.now) }
        ensures valid { IsValid (array self.now) }
    {
        self.trees.as_slice()
    }
}

impl Members {
    /// The members of an object, which it puts into the order of their names.
    ///
    /// It takes no memory, and drops what it refuses.
    pub fn from_pairs(mut pairs: Vec<(Text, Tree)>) -> Result<Members, MembersFault>
        ensures ok { IfOk result (λ members. members ≡ fields_of (sorted (map seen pairs.items))) }
        ensures repeated { IsErrOf result MembersFault.Repeated ↔ IsTrue (repeats (map (λ pair. pair.0) pairs.items)) }
    {
        if put_in_order(&mut pairs) {
            each_pair_is_valid(pairs.as_slice());
            Ok(Members { pairs })
        } else {
            Err(MembersFault::Repeated)
        }
    }

    /// Members of pairs that are an object's.
    pub(crate) fn from_valid(pairs: Vec<(Text, Tree)>) -> Members
        requires { IsValid (object (fields_of (map seen pairs.items))) }
        ensures { result ≡ fields_of (map seen pairs.items) }
    {
        Members { pairs }
    }

    /// How many members there are.
    pub fn len(&self) -> usize
        ensures { result ≡ length (names_of self.now) }
    {
        self.as_slice().len()
    }

    /// Whether there are none.
    pub fn is_empty(&self) -> bool
        ensures { result ≡ (length (names_of self.now) == 0) }
    {
        self.len() == 0
    }

    /// The name of the member at `i`, counted from 0 in the order of the names.
    pub fn name(&self, i: usize) -> &str
        requires { i < length (names_of self.now) }
        ensures { slice_get (names_of self.now) i ≡ Some result.now }
    {
        let pairs = self.as_slice();
        pairs[i].0.as_str()
    }

    /// The value of the member at `i`, counted from 0 in the order of the names.
    pub fn at(&self, i: usize) -> &Tree
        requires { i < length (names_of self.now) }
        ensures { slice_get (values_of self.now) i ≡ Some (view result.now) }
    {
        let pairs = self.as_slice();
        &pairs[i].1
    }

    /// The value of the member of that name. Takes time logarithmic in the number of members.
    pub fn get(&self, name: &str) -> Option<&Tree>
        ensures { option_map (λ tree. view tree.now) result ≡ member_of name.now self.now }
    {
        let pairs = self.as_slice();
        match pairs.binary_search_by(|pair| against_name(pair, name)) {
            Ok(i) => Some(&pairs[i].1),
            Err(_) => None,
        }
    }

    /// The members in place, each a name and a value.
    pub fn as_slice(&self) -> &[(Text, Tree)]
        ensures seen { self.now ≡ fields_of (map seen result.now) }
        ensures valid { IsValid (object self.now) }
    {
        self.pairs.as_slice()
    }
}
