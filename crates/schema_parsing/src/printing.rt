//! The canonical text of a schema: no spaces, the fields in their order, and a name in quotes only where it
//! needs them.

ghost use Rattle.std.specs.Prelude.{◌≡◌, ◌++◌, ◌∷◌, [], map, decimal, OnOk, OnErr};
ghost use Rattle.vs_bytes.specs.Outcome.{Grows};
ghost use Rattle.shred_schema.specs.Groups.{groups_from};
ghost use Rattle.shred_schema.specs.Views.{group_of, named};
ghost use Rattle.schema_parsing.specs.Canonical.{fields_text, name_text, prim_text, schema_text, HasText};
ghost use Rattle.schema_parsing.specs.Grammar.{IsSchema};

use byte_parsing::is_name;
use itoa::Buffer;
use json_tree::print_text;
use shred_schema::{Node, Typed};
use std::alloc::AllocError;
use vs_bytes::{NoMemory, Prim, Text};

/// Appends the canonical text of the schema whose node it is. After an `Err` `into` is as before.
///
/// [`parse_schema`](crate::parse_schema) gives the same node of that text.
pub fn print_schema(into: &mut Vec<u8>, node: &Node) -> Result<(), NoMemory>
    requires written { HasText (group_of node.now) }
    ensures ok { OnOk result (into.new.items ≡ into.old.items ++ schema_text (group_of node.now)) }
    ensures err { OnErr result (into.new.items ≡ into.old.items) }
    ensures read_back { IsSchema (schema_text (group_of node.now)) (group_of node.now) }
{
    let before = into.len();
    if put_schema(into, node).is_err() {
        into.truncate(before);
        return Err(NoMemory);
    }
    Ok(())
}

#[cycle(put)]
fn put_schema(into: &mut Vec<u8>, node: &Node) -> Result<(), AllocError>
    ensures ok { OnOk result (into.new.items ≡ into.old.items ++ schema_text (group_of node.now)) }
    ensures grows { Grows into.old.items into.new.items }
{
    match &node.typed {
        Typed::Free => into.extend_from_slice(b"variant"),
        Typed::Prim(prim) => put_prim(into, *prim),
        Typed::Fields(fields) => put_braced(into, fields.as_slice()),
        Typed::Items(item) => put_bracketed(into, item.get()),
    }
}

#[cycle(put)]
fn put_braced(into: &mut Vec<u8>, fields: &[(Text, Node)]) -> Result<(), AllocError>
    ensures ok { OnOk result (into.new.items ≡ into.old.items ++ (123 ∷ (fields_text (groups_from (map named fields.now)) ++ 125 ∷ []))) }
    ensures grows { Grows into.old.items into.new.items }
{
    into.push(b'{')?;
    put_fields(into, fields)?;
    into.push(b'}')?;
    Ok(())
}

#[cycle(put)]
fn put_fields(into: &mut Vec<u8>, fields: &[(Text, Node)]) -> Result<(), AllocError>
    ensures ok { OnOk result (into.new.items ≡ into.old.items ++ fields_text (groups_from (map named fields.now))) }
    ensures grows { Grows into.old.items into.new.items }
{
    if let Some((first, others)) = fields.split_first() {
        put_field(into, &first.0, &first.1)?;
        for field in others {
            into.push(b',')?;
            put_field(into, &field.0, &field.1)?;
        }
    }
    Ok(())
}

#[cycle(put)]
fn put_field(into: &mut Vec<u8>, name: &Text, node: &Node) -> Result<(), AllocError>
    ensures ok { OnOk result (into.new.items ≡ into.old.items ++ (name_text name.now ++ 58 ∷ schema_text (group_of node.now))) }
    ensures grows { Grows into.old.items into.new.items }
{
    put_name(into, name.as_str())?;
    into.push(b':')?;
    put_schema(into, node)
}

#[cycle(put)]
fn put_bracketed(into: &mut Vec<u8>, item: &Node) -> Result<(), AllocError>
    ensures ok { OnOk result (into.new.items ≡ into.old.items ++ (91 ∷ (schema_text (group_of item.now) ++ 93 ∷ []))) }
    ensures grows { Grows into.old.items into.new.items }
{
    into.push(b'[')?;
    put_schema(into, item)?;
    into.push(b']')?;
    Ok(())
}

fn put_name(into: &mut Vec<u8>, name: &str) -> Result<(), AllocError>
    ensures ok { OnOk result (into.new.items ≡ into.old.items ++ name_text name.now) }
    ensures grows { Grows into.old.items into.new.items }
{
    if is_name(name.as_bytes()) {
        return into.extend_from_slice(name.as_bytes());
    }
    match print_text(into, name) {
        Ok(()) => Ok(()),
        Err(NoMemory) => Err(AllocError),
    }
}

fn put_number(into: &mut Vec<u8>, number: u8) -> Result<(), AllocError>
    ensures ok { OnOk result (into.new.items ≡ into.old.items ++ decimal number) }
    ensures grows { Grows into.old.items into.new.items }
{
    let mut digits = Buffer::new();
    into.extend_from_slice(digits.format(number).as_bytes())
}

fn put_decimal(into: &mut Vec<u8>, p: u8, s: u8) -> Result<(), AllocError>
    ensures ok { OnOk result (into.new.items ≡ into.old.items ++ prim_text (Prim.Decimal p s)) }
    ensures grows { Grows into.old.items into.new.items }
{
    into.extend_from_slice(b"decimal(")?;
    put_number(into, p)?;
    into.push(b',')?;
    put_number(into, s)?;
    into.push(b')')?;
    Ok(())
}

fn put_prim(into: &mut Vec<u8>, prim: Prim) -> Result<(), AllocError>
    ensures ok { OnOk result (into.new.items ≡ into.old.items ++ prim_text prim) }
    ensures grows { Grows into.old.items into.new.items }
{
    match prim {
        Prim::Raw => Ok(()),
        Prim::Boolean => into.extend_from_slice(b"boolean"),
        Prim::Int8 => into.extend_from_slice(b"int8"),
        Prim::Int16 => into.extend_from_slice(b"int16"),
        Prim::Int32 => into.extend_from_slice(b"int32"),
        Prim::Int64 => into.extend_from_slice(b"int64"),
        Prim::Decimal { p, s } => put_decimal(into, p, s),
        Prim::Text => into.extend_from_slice(b"string"),
        Prim::Refused(_) => Ok(()),
    }
}
