//! Whole schemas.

ghost use Rattle.std.specs.Prelude.{◌≡◌};
ghost use Rattle.std.specs.Option.{option_map};
ghost use Rattle.vs_bytes.specs.Outcome.{Reads};
ghost use Rattle.shred_schema.specs.Views.{group_of};
ghost use Rattle.schema_parsing.specs.Grammar.{at_top, schema_of};
ghost use Rattle.schema_parsing.specs.Parses.{Parses};
ghost use Rattle.schema_parsing.specs.Reading.{text_at};

use crate::fault::SchemaFault;
use crate::leaves::are_few;
use crate::reader::read_schema;
use shred_schema::{Node, Slot, Typed};
use std::alloc::Global;
use vs_bytes::{Absent, Refused};

// The most bytes of a schema.
const MAX_BYTES: usize = 16_384;

// The most braces and brackets that are open at once.
const MAX_NESTING: u32 = 16;

// The node of a whole column: a value that nothing is taken out of is always there.
fn top_node(node: Node) -> Node
    ensures { group_of result ≡ at_top (group_of node) }
{
    match node.typed {
        Typed::Free => Node {
            value: Slot::Required,
            typed: Typed::Free,
        },
        typed => Node {
            value: node.value,
            typed,
        },
    }
}

fn read_whole(alloc: Global, text: &[u8]) -> Result<Node, Refused<Absent>>
    ensures { Reads group_of result (option_map (λ w. at_top (schema_of w)) (text_at text.now)) }
{
    if text.len() > MAX_BYTES {
        return Err(Refused::Fault(Absent));
    }
    let (node, rest) = read_schema(alloc, text, MAX_NESTING)?;
    if !rest.is_empty() {
        return Err(Refused::Fault(Absent));
    }
    let node = top_node(node);
    if !are_few(&node) {
        return Err(Refused::Fault(Absent));
    }
    Ok(node)
}

/// Reads a text that is a schema: the node of its column.
///
/// It has at most 16,384 bytes, at most 16 braces and brackets are open at once, and its column has at most
/// 128 leaves with the metadata. At the top of `variant` the value is required, every other is optional.
pub fn parse_schema(alloc: Global, text: &str) -> Result<Node, SchemaFault>
    ensures parses { Parses group_of text.now result }
{
    match read_whole(alloc, text.as_bytes()) {
        Ok(node) => Ok(node),
        Err(Refused::Fault(Absent)) => Err(SchemaFault::BadSchema),
        Err(Refused::NoMemory) => Err(SchemaFault::NoMemory),
    }
}
