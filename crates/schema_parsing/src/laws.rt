//! The laws of schemas: `text_at`, the function on lists that the parser follows, reads the schemas that the
//! grammar spells and nothing else, and canonical texts are read back. Each law is a contract of an empty
//! function.

ghost use Rattle.std.specs.Prelude.{◌≡◌, ◌≤◌, ◌+◌, List, [], ℕ, Some, length};
ghost use Rattle.shred_schema.specs.Groups.{Group, nesting, width};
ghost use Rattle.shred_schema.specs.Lawful.{AllWritten};
ghost use Rattle.schema_parsing.specs.Canonical.{schema_text};
ghost use Rattle.schema_parsing.specs.Grammar.{SchemaSyntax, schema_bytes, schema_of, IsWell, IsSchema, at_top};
ghost use Rattle.schema_parsing.specs.Limits.{most_bytes, most_nesting, most_leaves};
ghost use Rattle.schema_parsing.specs.Reading.{text_at};

/// A derivation of a text within the limits is what is read.
pub fn schemas_are_read()
    ensures { (text : List ℕ) (w : SchemaSyntax) → text ≡ schema_bytes w [] → IsWell w [] → length text ≤ most_bytes → nesting (at_top (schema_of w)) ≤ most_nesting → width (at_top (schema_of w)) + 1 ≤ most_leaves → text_at text ≡ Some w }
{}

/// What is read is a derivation of the text, within the limits.
pub fn schemas_are_sound()
    ensures { (text : List ℕ) (w : SchemaSyntax) → text_at text ≡ Some w → IsSchema text (at_top (schema_of w)) }
{}

/// A text is one schema at most.
pub fn schemas_are_one()
    ensures { (text : List ℕ) (f g : Group) → IsSchema text f → IsSchema text g → f ≡ g }
{}

/// The canonical text of a schema is a text of it, whatever its own text is.
pub fn schemas_have_canonical_texts()
    ensures { (text : List ℕ) (schema : Group) → IsSchema text schema → IsSchema (schema_text schema) schema }
{}

/// The column of a schema is one that is written: each node has a value, and no two fields of an object have
/// the same name.
pub fn schemas_are_written()
    ensures { (text : List ℕ) (schema : Group) → IsSchema text schema → AllWritten schema }
{}
