//! Nodes of schemas, and trees of documents.

ghost use Rattle.std.specs.Prelude.{◌≤◌, length, IfOk};
ghost use Rattle.json_tree.specs.Text.{text_of};
ghost use Rattle.json_tree.specs.Valid.{IsValid};
ghost use Rattle.json_tree.specs.View.{view};
ghost use Rattle.variant_write.specs.Conditions.{max_text_len};
ghost use Rattle.shred_schema.specs.Lawful.{AllWritten, IsWellFormed};
ghost use Rattle.shred_schema.specs.Views.{group_of};

use exact_json::read_line;
use json_tree::{Tree, text_len};
use schema_parsing::parse_schema;
use shred_schema::Node;
use std::alloc::Global;
use test_rows::Wrong;

/// The node of a schema.
#[tactic(auto, using(schema_parsing::proofs::WrittenNodes::schema_written, crate::proofs::Facts::schema_well))]
pub fn schema_node(alloc: Global, schema: &str) -> Result<Node, Wrong>
    ensures written { IfOk result (λ node. AllWritten (group_of node)) }
    ensures well { IfOk result (λ node. IsWellFormed (group_of node)) }
{
    match parse_schema(alloc, schema) {
        Ok(node) => Ok(node),
        Err(_) => Err(Wrong::Parts(schema.to_string(alloc)?)),
    }
}

/// The tree of a document whose text isn't too long.
#[tactic(auto, using(crate::proofs::Facts::document_valid))]
pub fn document_tree(alloc: Global, document: &str) -> Result<Tree, Wrong>
    ensures valid { IfOk result (λ tree. IsValid (view tree)) }
    ensures short { IfOk result (λ tree. length (text_of (view tree)) ≤ max_text_len) }
{
    match read_line(alloc, document.as_bytes()) {
        Ok(tree) => {
            if text_len(&tree) <= 16_777_216 {
                return Ok(tree);
            }
            Err(Wrong::Parts(document.to_string(alloc)?))
        }
        Err(_) => Err(Wrong::Parts(document.to_string(alloc)?)),
    }
}
