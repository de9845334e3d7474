//! How long the canonical text of a tree is.

ghost use Rattle.std.specs.Prelude.{◌≡◌, ◌≤◌, ◌-◌, ◌^◌, ◌++◌, ◌∷◌, [], map, min, length, flat_map};
ghost use Rattle.exact_num.specs.NumberOf.{decimal_of};
ghost use Rattle.exact_num.specs.Text as numbers;
ghost use Rattle.json_tree.specs.Json.{parts_of, fields_of};
ghost use Rattle.json_tree.specs.Text.{text_of, parts_text, fields_text, quoted, escaped};
ghost use Rattle.json_tree.specs.View.{view, seen};

use crate::types::Tree;
use exact_num::Number;
use vs_bytes::Text;

/// The bytes that the canonical text of `tree` takes, and at most `u64::MAX`. It takes no memory.
#[cycle(text_len)]
pub fn text_len(tree: &Tree) -> u64
    ensures { result ≡ min (length (text_of (view tree.now))) (2 ^ 64 - 1) }
{
    match tree {
        Tree::Null => 4,
        Tree::Bool(true) => 4,
        Tree::Bool(false) => 5,
        Tree::Num(number) => number_len(*number),
        Tree::Text(text) => quoted_len(text.as_bytes()),
        Tree::Array(items) => items_len(items.as_slice()).saturating_add(2),
        Tree::Object(members) => members_len(members.as_slice()).saturating_add(2),
    }
}

#[cycle(text_len)]
fn items_len(trees: &[Tree]) -> u64
    ensures { result ≡ min (length (parts_text (parts_of (map view trees.now)))) (2 ^ 64 - 1) }
{
    let mut len: u64 = 0;
    if let Some((first, others)) = trees.split_first() {
        len = text_len(first);
        for tree in others {
            len = len.saturating_add(1).saturating_add(text_len(tree));
        }
    }
    len
}

#[cycle(text_len)]
fn members_len(pairs: &[(Text, Tree)]) -> u64
    ensures { result ≡ min (length (fields_text (fields_of (map seen pairs.now)))) (2 ^ 64 - 1) }
{
    let mut len: u64 = 0;
    if let Some((first, others)) = pairs.split_first() {
        len = member_len(&first.0, &first.1);
        for pair in others {
            len = len
                .saturating_add(1)
                .saturating_add(member_len(&pair.0, &pair.1));
        }
    }
    len
}

#[cycle(text_len)]
fn member_len(name: &Text, tree: &Tree) -> u64
    ensures { result ≡ min (length (quoted name.now ++ 58 ∷ text_of (view tree.now))) (2 ^ 64 - 1) }
{
    quoted_len(name.as_bytes())
        .saturating_add(1)
        .saturating_add(text_len(tree))
}

fn number_len(number: Number) -> u64
    ensures { result ≡ min (length (numbers.text_of (decimal_of number))) (2 ^ 64 - 1) }
{
    exact_num::text_len(number)
}

fn quoted_len(text: &[u8]) -> u64
    ensures { result ≡ min (length (quoted text.now)) (2 ^ 64 - 1) }
{
    let mut len: u64 = 2;
    for byte in text {
        len = len.saturating_add(escaped_len(*byte));
    }
    len
}

#[tactic(auto, unfolding(crate::specs::Text::escaped))]
fn escaped_len(byte: u8) -> u64
    ensures { result ≡ length (escaped byte) }
{
    match byte {
        b'"' => 2,
        b'\\' => 2,
        8..=10 => 2,
        12..=13 => 2,
        0..=31 => 6,
        _ => 1,
    }
}
