//! The canonical JSON text of a tree: no white space, names in their order, and of the escapes of
//! RFC 8259, section 7, the short one where there is one.

ghost use Rattle.std.specs.Prelude.{◌≡◌, ◌++◌, ◌∷◌, [], map, flat_map, OnOk, OnErr, IsFalse, ◌<◌};
ghost use Rattle.exact_num.specs.NumberOf.{decimal_of};
ghost use Rattle.exact_num.specs.Text as numbers;
ghost use Rattle.json_tree.specs.Grown.{Grows};
ghost use Rattle.json_tree.specs.Json.{parts_of, fields_of};
ghost use Rattle.json_tree.specs.Text.{text_of, parts_text, fields_text, quoted, escaped, hex_digit};
ghost use Rattle.json_tree.specs.View.{view, seen};

use crate::types::Tree;
use exact_num::Number;
use std::alloc::AllocError;
use vs_bytes::{NoMemory, Text};

/// Appends the canonical JSON text of `tree`. After an `Err` `into` is as before.
pub fn print(into: &mut Vec<u8>, tree: &Tree) -> Result<(), NoMemory>
    ensures ok { OnOk result (into.new.items ≡ into.old.items ++ text_of (view tree.now)) }
    ensures err { OnErr result (into.new.items ≡ into.old.items) }
{
    let before = into.len();
    if put_tree(into, tree).is_err() {
        into.truncate(before);
        return Err(NoMemory);
    }
    Ok(())
}

/// Appends `text` as a JSON string, in its quotes. After an `Err` `into` is as before.
pub fn print_text(into: &mut Vec<u8>, text: &str) -> Result<(), NoMemory>
    ensures ok { OnOk result (into.new.items ≡ into.old.items ++ quoted text.now) }
    ensures err { OnErr result (into.new.items ≡ into.old.items) }
{
    print_quoted(into, text.as_bytes())
}

/// Appends the bytes of some text as a JSON string, in its quotes. After an `Err` `into` is as before.
pub fn print_quoted(into: &mut Vec<u8>, text: &[u8]) -> Result<(), NoMemory>
    ensures ok { OnOk result (into.new.items ≡ into.old.items ++ quoted text.now) }
    ensures err { OnErr result (into.new.items ≡ into.old.items) }
{
    let before = into.len();
    if put_text(into, text).is_err() {
        into.truncate(before);
        return Err(NoMemory);
    }
    Ok(())
}

#[cycle(put)]
fn put_tree(into: &mut Vec<u8>, tree: &Tree) -> Result<(), AllocError>
    ensures ok { OnOk result (into.new.items ≡ into.old.items ++ text_of (view tree.now)) }
    ensures grows { Grows into.old.items into.new.items }
{
    match tree {
        Tree::Null => into.extend_from_slice(b"null"),
        Tree::Bool(true) => into.extend_from_slice(b"true"),
        Tree::Bool(false) => into.extend_from_slice(b"false"),
        Tree::Num(number) => put_number(into, *number),
        Tree::Text(text) => put_text(into, text.as_bytes()),
        Tree::Array(items) => put_array(into, items.as_slice()),
        Tree::Object(members) => put_object(into, members.as_slice()),
    }
}

#[cycle(put)]
fn put_array(into: &mut Vec<u8>, trees: &[Tree]) -> Result<(), AllocError>
    ensures ok { OnOk result (into.new.items ≡ into.old.items ++ (91 ∷ (parts_text (parts_of (map view trees.now)) ++ 93 ∷ []))) }
    ensures grows { Grows into.old.items into.new.items }
{
    into.push(b'[')?;
    put_items(into, trees)?;
    into.push(b']')?;
    Ok(())
}

#[cycle(put)]
fn put_items(into: &mut Vec<u8>, trees: &[Tree]) -> Result<(), AllocError>
    ensures ok { OnOk result (into.new.items ≡ into.old.items ++ parts_text (parts_of (map view trees.now))) }
    ensures grows { Grows into.old.items into.new.items }
{
    if let Some((first, others)) = trees.split_first() {
        put_tree(into, first)?;
        for tree in others {
            into.push(b',')?;
            put_tree(into, tree)?;
        }
    }
    Ok(())
}

#[cycle(put)]
fn put_object(into: &mut Vec<u8>, pairs: &[(Text, Tree)]) -> Result<(), AllocError>
    ensures ok { OnOk result (into.new.items ≡ into.old.items ++ (123 ∷ (fields_text (fields_of (map seen pairs.now)) ++ 125 ∷ []))) }
    ensures grows { Grows into.old.items into.new.items }
{
    into.push(b'{')?;
    put_members(into, pairs)?;
    into.push(b'}')?;
    Ok(())
}

#[cycle(put)]
fn put_members(into: &mut Vec<u8>, pairs: &[(Text, Tree)]) -> Result<(), AllocError>
    ensures ok { OnOk result (into.new.items ≡ into.old.items ++ fields_text (fields_of (map seen pairs.now))) }
    ensures grows { Grows into.old.items into.new.items }
{
    if let Some((first, others)) = pairs.split_first() {
        put_member(into, &first.0, &first.1)?;
        for pair in others {
            into.push(b',')?;
            put_member(into, &pair.0, &pair.1)?;
        }
    }
    Ok(())
}

#[cycle(put)]
fn put_member(into: &mut Vec<u8>, name: &Text, tree: &Tree) -> Result<(), AllocError>
    ensures ok { OnOk result (into.new.items ≡ into.old.items ++ (quoted name.now ++ 58 ∷ text_of (view tree.now))) }
    ensures grows { Grows into.old.items into.new.items }
{
    put_text(into, name.as_bytes())?;
    into.push(b':')?;
    put_tree(into, tree)
}

fn put_number(into: &mut Vec<u8>, number: Number) -> Result<(), AllocError>
    ensures ok { OnOk result (into.new.items ≡ into.old.items ++ numbers.text_of (decimal_of number)) }
    ensures grows { Grows into.old.items into.new.items }
{
    match exact_num::print(into, number) {
        Ok(()) => Ok(()),
        Err(NoMemory) => Err(AllocError),
    }
}

fn put_text(into: &mut Vec<u8>, text: &[u8]) -> Result<(), AllocError>
    ensures ok { OnOk result (into.new.items ≡ into.old.items ++ quoted text.now) }
    ensures grows { Grows into.old.items into.new.items }
{
    into.push(b'"')?;
    put_escaped(into, text)?;
    into.push(b'"')?;
    Ok(())
}

// Runs of bytes that need no escape are appended at once.
fn put_escaped(into: &mut Vec<u8>, text: &[u8]) -> Result<(), AllocError>
    ensures ok { OnOk result (into.new.items ≡ into.old.items ++ flat_map escaped text.now) }
    ensures grows { Grows into.old.items into.new.items }
{
    let mut start = 0;
    for (i, byte) in text.iter().enumerate() {
        if needs_escape(*byte) {
            into.extend_from_slice(&text[start..i])?;
            put_escape(into, *byte)?;
            start = i + 1;
        }
    }
    into.extend_from_slice(&text[start..])
}

#[tactic(auto, unfolding(crate::specs::Text::escaped))]
fn needs_escape(byte: u8) -> bool
    ensures plain { IsFalse result → escaped byte ≡ byte ∷ [] }
{
    byte < 32 || byte == b'"' || byte == b'\\'
}

#[tactic(auto, unfolding(crate::specs::Text::escaped))]
fn put_escape(into: &mut Vec<u8>, byte: u8) -> Result<(), AllocError>
    ensures ok { OnOk result (into.new.items ≡ into.old.items ++ escaped byte) }
    ensures grows { Grows into.old.items into.new.items }
{
    match byte {
        b'"' => into.extend_from_slice(b"\\\""),
        b'\\' => into.extend_from_slice(b"\\\\"),
        8 => into.extend_from_slice(b"\\b"),
        9 => into.extend_from_slice(b"\\t"),
        10 => into.extend_from_slice(b"\\n"),
        12 => into.extend_from_slice(b"\\f"),
        13 => into.extend_from_slice(b"\\r"),
        0..=31 => into.extend_from_slice(&[
            b'\\',
            b'u',
            b'0',
            b'0',
            hex_digit(byte / 16),
            hex_digit(byte % 16),
        ]),
        _ => into.extend_from_slice(&[byte]),
    }
}

fn hex_digit(digit: u8) -> u8
    requires { digit < 16 }
    ensures { result ≡ hex_digit digit }
{
    if digit < 10 {
        b'0' + digit
    } else {
        b'a' + (digit - 10)
    }
}
