//! Columns and their nodes.

ghost use Rattle.std.specs.Prelude.{◌≡◌, ◌<◌, ◌↔◌, [], ◌∷◌, ◌++◌, length, slice_get, Some, IsTrue, OnOk, OnErr};
ghost use Rattle.std.specs.Option.{option_map};
ghost use Rattle.shred_schema.specs.Views.{fields_in};

use sqlite_items::{Boxed, Items};
use std::alloc::Global;
use vs_bytes::{NoMemory, Prim, Text};

/// Whether a node has a `value`, and whether one is always there.
#[derive(Clone, Copy, PartialEq, Eq, Debug, Drop)]
pub enum Slot {
    /// The node has none.
    Absent,
    /// The node has one, which is always there.
    Required,
    /// The node has one, which may be missing.
    Optional,
}

/// A node of a column: the group of a `value` and a `typed_value` (VariantShredding.md, "Shredding").
#[cycle(node)]
#[derive(Drop)]
pub struct Node {
    /// Its `value`, which holds Variant bytes.
    pub value: Slot,
    /// Its `typed_value`.
    pub typed: Typed,
}

/// The `typed_value` of a node.
#[cycle(node)]
#[derive(Drop)]
pub enum Typed {
    /// There is none.
    Free,
    /// A leaf column of cells.
    Prim(Prim),
    /// A group with a node for each field.
    Fields(FieldList),
    /// A list with a node for its elements.
    Items(Boxed<Node>),
}

/// The fields of an object's typed part, in the order of the file.
#[cycle(node)]
#[derive(Drop)]
pub struct FieldList {
    fields: Items<(Text, Node)>,
}

/// A column of shredded Variants.
#[derive(Drop)]
pub struct Column {
    /// Whether a row may be absent.
    pub optional: bool,
    /// The node at the top.
    pub node: Node,
}

impl FieldList {
    /// No fields.
    pub fn new(alloc: Global) -> FieldList
        ensures { fields_in result ≡ [] }
    {
        FieldList {
            fields: Items::new(alloc),
        }
    }

    /// The fields of a list, which it takes over.
    pub fn from_items(fields: Items<(Text, Node)>) -> FieldList
        ensures { fields_in result ≡ fields }
    {
        FieldList { fields }
    }

    /// Puts one more field at the end. After an `Err` the fields are as before.
    pub fn push(&mut self, name: Text, node: Node) -> Result<(), NoMemory>
        ensures ok { OnOk result (fields_in self.new ≡ fields_in self.old ++ (name, node) ∷ []) }
        ensures err { OnErr result (self.new ≡ self.old) }
    {
        self.fields.push((name, node))?;
        Ok(())
    }

    /// How many fields there are.
    pub fn len(&self) -> usize
        ensures { result ≡ length (fields_in self.now) }
    {
        self.fields.len()
    }

    /// Whether there are none.
    pub fn is_empty(&self) -> bool
        ensures { IsTrue result ↔ (fields_in self.now ≡ []) }
    {
        self.fields.is_empty()
    }

    /// The name of the field at `k`, counted from 0.
    pub fn name(&self, k: usize) -> &str
        requires { k < length (fields_in self.now) }
        ensures { option_map (λ f. f.0) (slice_get (fields_in self.now) k) ≡ Some result.now }
    {
        self.as_slice()[k].0.as_str()
    }

    /// The node of the field at `k`, counted from 0.
    pub fn node(&self, k: usize) -> &Node
        requires { k < length (fields_in self.now) }
        ensures { option_map (λ f. f.1) (slice_get (fields_in self.now) k) ≡ Some result.now }
    {
        &self.as_slice()[k].1
    }

    /// The fields in place: the name and the node of each.
    pub fn as_slice(&self) -> &[(Text, Node)]
        ensures { result.now ≡ fields_in self.now }
    {
        self.fields.as_slice()
    }
}
