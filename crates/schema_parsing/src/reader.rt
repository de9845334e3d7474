//! Schemas at the front of bytes.
//!
//! Each function follows one function on lists of `specs/Reading.antt`, by the same calls: it gives what that
//! reads, and the bytes after it. `room` is how many more braces and brackets may be opened.

ghost use Rattle.std.specs.Prelude.{◌≡◌, map, IfOk};
ghost use Rattle.vs_bytes.specs.Outcome.{Reads};
ghost use Rattle.byte_parsing.specs.Parse.{read_as};
ghost use Rattle.shred_schema.specs.Groups.{group, object_of, list_of, groups_from};
ghost use Rattle.shred_schema.specs.Views.{group_of, named};
ghost use Rattle.shred_schema.specs.declared.nodes.Slot.TheVariants.{Optional};
ghost use Rattle.schema_parsing.specs.Grammar.{field_in, fields_in, schema_of};
ghost use Rattle.schema_parsing.specs.Parts.{braced_within, bracketed_within};
ghost use Rattle.schema_parsing.specs.Reading.{field_at, fields_at, schema_at};

use crate::fields::names_repeat;
use crate::names::read_name;
use crate::words::read_word;
use byte_parsing::{after_byte, past_spaces};
use shred_schema::{FieldList, Node, Slot, Typed};
use sqlite_items::{Boxed, Items};
use std::alloc::Global;
use vs_bytes::{Absent, NoMemory, Refused, Text};

// A node with these fields.
fn object_node(fields: Items<(Text, Node)>) -> Node
    ensures { group_of result ≡ group Optional (object_of (groups_from (map named fields))) }
{
    Node {
        value: Slot::Optional,
        typed: Typed::Fields(FieldList::from_items(fields)),
    }
}

// A node whose elements are of a node.
fn list_node(alloc: Global, item: Node) -> Result<Node, NoMemory>
    ensures { IfOk result (λ node. group_of node ≡ group Optional (list_of (group_of item))) }
{
    let item = Boxed::new(alloc, item)?;
    Ok(Node {
        value: Slot::Optional,
        typed: Typed::Items(item),
    })
}

// After an opening brace.
#[cycle(reader)]
fn read_braced(alloc: Global, text: &[u8], room: u32) -> Result<(Node, &[u8]), Refused<Absent>>
    ensures reads { Reads (λ x. (group_of x.0, x.1.now)) result (read_as schema_of (braced_within room text.now)) }
{
    if room == 0 {
        return Err(Refused::Fault(Absent));
    }
    let (fields, rest) = read_fields(alloc, past_spaces(text), room - 1)?;
    if names_repeat(fields.as_slice()) {
        return Err(Refused::Fault(Absent));
    }
    Ok((object_node(fields), rest))
}

// After an opening bracket.
#[cycle(reader)]
fn read_bracketed(alloc: Global, text: &[u8], room: u32) -> Result<(Node, &[u8]), Refused<Absent>>
    ensures reads { Reads (λ x. (group_of x.0, x.1.now)) result (read_as schema_of (bracketed_within room text.now)) }
{
    if room == 0 {
        return Err(Refused::Fault(Absent));
    }
    let (item, more) = read_schema(alloc, past_spaces(text), room - 1)?;
    match after_byte(past_spaces(more), b']') {
        Some(rest) => Ok((list_node(alloc, item)?, rest)),
        None => Err(Refused::Fault(Absent)),
    }
}

/// Reads a schema from the front of `text`, and gives the bytes after it.
#[cycle(reader)]
#[tactic(auto, using(crate::proofs::ReaderParts::schema_is))]
pub(crate) fn read_schema(
    alloc: Global,
    text: &[u8],
    room: u32,
) -> Result<(Node, &[u8]), Refused<Absent>>
    ensures reads { Reads (λ x. (group_of x.0, x.1.now)) result (read_as schema_of (schema_at room text.now)) }
{
    if let Some(inside) = after_byte(text, b'{') {
        return read_braced(alloc, inside, room);
    }
    if let Some(inside) = after_byte(text, b'[') {
        return read_bracketed(alloc, inside, room);
    }
    match read_word(text) {
        Some(read) => Ok(read),
        None => Err(Refused::Fault(Absent)),
    }
}

// A name, a colon and a schema.
#[cycle(reader)]
fn read_field(
    alloc: Global,
    text: &[u8],
    room: u32,
) -> Result<((Text, Node), &[u8]), Refused<Absent>>
    ensures reads { Reads (λ x. (named x.0, x.1.now)) result (read_as field_in (field_at (λ xs. schema_at room xs) text.now)) }
{
    let (name, more) = read_name(alloc, text)?;
    let Some(behind) = after_byte(past_spaces(more), b':') else {
        return Err(Refused::Fault(Absent));
    };
    let (node, rest) = read_schema(alloc, past_spaces(behind), room)?;
    Ok(((name, node), rest))
}

// One field at least, up to the closing brace.
#[cycle(reader)]
#[tactic(auto, using(crate::proofs::ReaderParts::no_start, crate::proofs::ReaderParts::over))]
fn read_fields(
    alloc: Global,
    text: &[u8],
    room: u32,
) -> Result<(Items<(Text, Node)>, &[u8]), Refused<Absent>>
    ensures reads { Reads (λ x. (map named x.0, x.1.now)) result (read_as fields_in (fields_at (λ xs. schema_at room xs) text.now)) }
{
    let (first, more) = read_field(alloc, text, room)?;
    let mut fields = Items::new(alloc);
    fields.push(first)?;
    let mut rest = past_spaces(more);
    // Each turn takes a byte, so there are at most so many.
    for turn in 0..rest.len() {
        if let Some(end) = after_byte(rest, b'}') {
            return Ok((fields, end));
        }
        let Some(behind) = after_byte(rest, b',') else {
            return Err(Refused::Fault(Absent));
        };
        let (field, after) = read_field(alloc, past_spaces(behind), room)?;
        fields.push(field)?;
        rest = past_spaces(after);
    }
    Err(Refused::Fault(Absent))
}
