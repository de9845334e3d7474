//! What the words after `load` ask for.

ghost use Rattle.std.specs.Prelude.{◌≡◌};
ghost use Rattle.shred_schema.specs.Views.{group_of};
ghost use Rattle.schema_parsing.specs.Grammar.{IsSchema};
ghost use Rattle.command_parsing.specs.Asking.{Reads};
ghost use Rattle.command_parsing.specs.Commands.{IsLoad, IsWrongSchema, AskLoad, AskLoadWrongly, load_of};
ghost use Rattle.command_words.specs.Reading as words;

use crate::fault::{BadWords, WordsFault};
use command_words::{LoadWords, WidthWords, WordFault, load_words};
use schema_parsing::{SchemaFault, parse_schema};
use shred_schema::Node;
use std::alloc::Global;
use vs_bytes::Text;

/// A file that is to be written, the schema of its column, and how it is written: the least widths of offsets
/// and of field ids, and the limits of a page, in bytes, and of a row group, in rows.
#[derive(Drop)]
pub struct LoadCommand {
    pub out: Text,
    pub schema: Node,
    pub widths: WidthWords,
    pub page_bytes: u32,
    pub group_rows: u32,
}

/// The schema of a text.
fn asked_schema(alloc: Global, text: &str) -> Result<Node, WordsFault>
    ensures { Reads (λ node. IsSchema text.now (group_of node)) (IsWrongSchema text.now) result }
{
    match parse_schema(alloc, text) {
        Ok(node) => Ok(node),
        Err(SchemaFault::BadSchema) => Err(WordsFault::Wrong(BadWords::BadSchema)),
        Err(SchemaFault::NoMemory) => Err(WordsFault::NoMemory),
    }
}

/// What is given, with the schema of its text.
fn load_of_texts(alloc: Global, given: &LoadWords<'_>) -> Result<LoadCommand, WordsFault>
    ensures { Reads (λ load. IsLoad (words.load_of given.now) (load_of load)) (IsWrongSchema given.now.writing.schema.now) result }
{
    let schema = match asked_schema(alloc, given.writing.schema) {
        Ok(schema) => schema,
        Err(fault) => return Err(fault),
    };
    match Text::from_str(alloc, given.out) {
        Ok(out) => Ok(LoadCommand {
            out,
            schema,
            widths: given.writing.widths,
            page_bytes: given.writing.page_bytes,
            group_rows: given.writing.group_rows,
        }),
        Err(_) => Err(WordsFault::NoMemory),
    }
}

/// The file that the words after `load` ask for, and how it is written.
pub fn asked_load(alloc: Global, words: &[Text]) -> Result<LoadCommand, WordsFault>
    ensures { Reads (λ load. AskLoad words.now (load_of load)) (AskLoadWrongly words.now) result }
{
    match load_words(alloc, words) {
        Ok(given) => match load_of_texts(alloc, &given) {
            Ok(load) => Ok(load),
            Err(fault) => Err(fault),
        },
        Err(WordFault::Usage) => Err(WordsFault::Wrong(BadWords::Usage)),
        Err(WordFault::NoMemory) => Err(WordsFault::NoMemory),
    }
}
