//! Schemas as trees: groups and leaves, and whether a list of elements is one tree.

ghost use Rattle.std.specs.Prelude.{◌≡◌, ◌≤◌, ◌<◌, ◌^◌, length};
ghost use Rattle.std.specs.List.{list_all};
ghost use Rattle.schema_elements.specs.SchemaTrees.{count_in, child_count, is_leaf, are_trees, own_leaf, leaf_count, is_fixed, is_length, has_length};

use crate::elements::SchemaElement;

// The physical type whose values all have one length (parquet.thrift, Type).
const FIXED_LEN_BYTE_ARRAY: i32 = 7;

fn count_in(number: Option<i32>) -> u32
    ensures count { result ≡ count_in number }
    ensures small { result < 2 ^ 31 }
{
    match number {
        Some(number) if 0 <= number => number as u32,
        _ => 0,
    }
}

fn is_fixed(kind: Option<i32>) -> bool
    ensures { result ≡ is_fixed kind }
{
    match kind {
        Some(kind) => kind == FIXED_LEN_BYTE_ARRAY,
        None => false,
    }
}

fn is_length(number: Option<i32>) -> bool
    ensures { result ≡ is_length number }
{
    match number {
        Some(number) => 0 <= number,
        None => false,
    }
}

impl SchemaElement {
    /// How many elements stand directly inside.
    pub fn child_count(&self) -> u32
        ensures count { result ≡ child_count self.now }
        ensures small { result < 2 ^ 31 }
    {
        count_in(self.num_children)
    }

    /// Whether it is a leaf: it has a type and no children.
    pub fn is_leaf(&self) -> bool
        ensures { result ≡ is_leaf self.now }
    {
        self.kind.is_some() && self.child_count() == 0
    }

    // Whether it tells how long its values are, where it is a leaf of FIXED_LEN_BYTE_ARRAY.
    #[tactic(auto, unfolding(crate::specs::SchemaTrees::has_length))]
    fn has_length(&self) -> bool
        ensures { result ≡ has_length self.now }
    {
        !(self.is_leaf() && is_fixed(self.kind)) || is_length(self.type_length)
    }
}

/// Whether each leaf of FIXED_LEN_BYTE_ARRAY tells how long its values are.
pub fn have_lengths(elements: &[SchemaElement]) -> bool
    ensures { result ≡ list_all has_length elements.now }
{
    elements.iter().all(|element| element.has_length())
}

/// Whether elements are one tree, each group directly before its children.
#[tactic(auto, using(crate::proofs::Trees::one_more, crate::proofs::Trees::too_many, crate::proofs::Trees::at_end))]
pub fn is_one_tree(elements: &[SchemaElement]) -> bool
    ensures { result ≡ are_trees 1 elements.now }
{
    // How many trees the elements that are left should be.
    let mut wanted: u128 = 1;
    for element in elements {
        if wanted == 0 {
            return false;
        }
        wanted = u128::from(element.child_count()) + (wanted - 1);
    }
    wanted == 0
}

fn own_leaf(element: &SchemaElement) -> usize
    ensures own { result ≡ own_leaf element.now }
    ensures most { result ≤ 1 }
{
    if element.is_leaf() { 1 } else { 0 }
}

/// How many leaves there are.
#[tactic(auto, using(crate::proofs::Trees::leaf_more, crate::proofs::Trees::no_leaves))]
pub fn leaf_count(elements: &[SchemaElement]) -> usize
    ensures count { result ≡ leaf_count elements.now }
    ensures within { result ≤ length elements.now }
{
    let mut count = 0;
    for element in elements {
        count += own_leaf(element);
    }
    count
}
