//! Equality of trees.

ghost use Rattle.std.specs.Prelude.{◌≡◌, ◌↔◌, map, IsTrue};
ghost use Rattle.exact_num.specs.NumberOf.{decimal_of};
ghost use Rattle.json_tree.specs.View.{view, seen};

use crate::types::Tree;
use exact_num::Number;
use vs_bytes::Text;

/// Whether two trees have the same value.
#[cycle(same)]
pub fn same(a: &Tree, b: &Tree) -> bool
    ensures { IsTrue result ↔ (view a.now ≡ view b.now) }
{
    match a {
        Tree::Null => match b {
            Tree::Null => true,
            _ => false,
        },
        Tree::Bool(x) => match b {
            Tree::Bool(y) => *x == *y,
            _ => false,
        },
        Tree::Num(x) => match b {
            Tree::Num(y) => same_number(*x, *y),
            _ => false,
        },
        Tree::Text(x) => match b {
            Tree::Text(y) => x.as_bytes() == y.as_bytes(),
            _ => false,
        },
        Tree::Array(x) => match b {
            Tree::Array(y) => same_items(x.as_slice(), y.as_slice()),
            _ => false,
        },
        Tree::Object(x) => match b {
            Tree::Object(y) => same_members(x.as_slice(), y.as_slice()),
            _ => false,
        },
    }
}

#[cycle(same)]
fn same_items(a: &[Tree], b: &[Tree]) -> bool
    ensures { IsTrue result ↔ (map view a.now ≡ map view b.now) }
{
    if a.len() != b.len() {
        return false;
    }
    for i in 0..a.len() {
        if !same(&a[i], &b[i]) {
            return false;
        }
    }
    true
}

#[cycle(same)]
fn same_members(a: &[(Text, Tree)], b: &[(Text, Tree)]) -> bool
    ensures { IsTrue result ↔ (map seen a.now ≡ map seen b.now) }
{
    if a.len() != b.len() {
        return false;
    }
    for i in 0..a.len() {
        if !same_member(&a[i].0, &a[i].1, &b[i].0, &b[i].1) {
            return false;
        }
    }
    true
}

#[cycle(same)]
fn same_member(a_name: &Text, a: &Tree, b_name: &Text, b: &Tree) -> bool
    ensures { IsTrue result ↔ ((a_name.now ≡ b_name.now) × (view a.now ≡ view b.now)) }
{
    a_name.as_bytes() == b_name.as_bytes() && same(a, b)
}

// A value has one number.
fn same_number(a: Number, b: Number) -> bool
    ensures { IsTrue result ↔ (decimal_of a ≡ decimal_of b) }
{
    a.unscaled() == b.unscaled() && a.scale() == b.scale()
}
