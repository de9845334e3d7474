//! The laws of written schemas. Each is the contract of an empty function.

ghost use Rattle.std.specs.Prelude.{◌≡◌, ◌+◌, List, ℕ, Bool, ℤ, Ok, true, length};
ghost use Rattle.std.specs.List.{list_all};
ghost use Rattle.thrift_structs.specs.Listed.{ListFits};
ghost use Rattle.schema_elements.specs.ElementWriting.{ElementFits};
ghost use Rattle.schema_elements.specs.SchemaTrees.{are_trees, has_length, leaf_count};
ghost use Rattle.shred_schema.specs.Groups.{Group, width};
ghost use Rattle.shred_schema.specs.Lawful.{AllWritten, IsWellFormed};
ghost use Rattle.file_columns.specs.Columns.{column_of};
ghost use Rattle.file_columns.specs.Forests.{forest};
ghost use Rattle.written_columns.specs.Written.{schema_elements, column_paths, written_view, ways_in_root};

/// The schema that is written for a column is read as this column: the same node, its leaves with the types that are
/// written, and the places 0, 1, 2 and so on.
pub fn written_columns_read_back()
    ensures { (optional : Bool) (name : List ℕ) (n : Group) (orders : List ℤ) → AllWritten n → IsWellFormed n → column_of (schema_elements optional name n) name orders ≡ Ok (written_view optional n orders) }
{}

/// The schema paths are the names on the ways to the leaves of the schema that is written, and there is one for each
/// leaf.
pub fn paths_are_ways()
    ensures ways { (optional : Bool) (name : List ℕ) (n : Group) → IsWellFormed n → ways_in_root (forest (schema_elements optional name n)) ≡ column_paths name n }
    ensures count { (name : List ℕ) (n : Group) → length (column_paths name n) ≡ 1 + width n }
{}

/// A schema that is written is one that a footer may have: it is one tree with a leaf for each of the column, its leaves
/// of FIXED_LEN_BYTE_ARRAY tell how long their values are, and its elements can be written.
pub fn written_schemas_fit()
    ensures tree { (optional : Bool) (name : List ℕ) (n : Group) → IsWellFormed n → are_trees 1 (schema_elements optional name n) ≡ true }
    ensures leaves { (optional : Bool) (name : List ℕ) (n : Group) → leaf_count (schema_elements optional name n) ≡ 1 + width n }
    ensures lengths { (optional : Bool) (name : List ℕ) (n : Group) → AllWritten n → list_all has_length (schema_elements optional name n) ≡ true }
    ensures fits { (optional : Bool) (name : List ℕ) (n : Group) → AllWritten n → IsWellFormed n → ListFits ElementFits (schema_elements optional name n) }
{}
