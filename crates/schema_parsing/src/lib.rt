//! How the schemas of shredded columns are written, and their reading.
//!
//! A schema is `variant`, which shreds nothing; `boolean`, `int8`, `int16`, `int32`, `int64`, `string` or
//! `decimal(P,S)`; `{name:schema,..}`, an object with these fields; or `[schema]`, an array. The name of a field
//! is a letter or `_`, then letters, digits and `_`, or a JSON string with no lone surrogate. The fields of one
//! object have different names. P is 1 to 38, S is 0 to P, and neither has a needless 0 in front. Spaces may
//! stand between two of these parts, but none before the first and none after the last.
//!
//! A schema has at most 16,384 bytes, at most 16 braces and brackets are open at once, and its column has at
//! most 128 leaves with the metadata.
//!
//! A text is read in one pass, call by call as the functions on lists of `specs/Reading.antt` read it. How many
//! leaves there are is asked of the finished schema.
//!
//! | Module | What it holds |
//! |---|---|
//! | `parser` | `parse_schema`: the node of a text |
//! | `reader` | objects and arrays |
//! | `words` | the other kinds |
//! | `names` | the names of fields |
//! | `fields` | whether a name stands twice |
//! | `leaves` | whether there are too many leaves |
//! | `printing` | `print_schema`: the canonical text |
//! | `fault` | `SchemaFault`: why a text is no schema |
//! | `laws` | what is written is read, what is read is written, a text is one schema at most, canonical texts are read back |
#![tactic(auto)]

mod fault;
mod fields;
mod laws;
mod leaves;
mod names;
mod parser;
mod printing;
mod reader;
mod words;

pub use fault::SchemaFault;
pub use laws::{
    schemas_are_one, schemas_are_read, schemas_are_sound, schemas_are_written,
    schemas_have_canonical_texts,
};
pub use parser::parse_schema;
pub use printing::print_schema;
