//! The laws of schemas. Each is the contract of an empty function.

ghost use Rattle.std.specs.Prelude.{◌≡◌, List, true};
ghost use Rattle.schema_elements.specs.declared.elements.SchemaElement.{SchemaElement};
ghost use Rattle.file_columns.specs.Forests.{Forest, flat, forest, Tells, tree_count};
ghost use Rattle.schema_elements.specs.SchemaTrees.{are_trees};

/// The trees that a list stands for have its elements in order. Trees whose elements tell how many stand inside them
/// are what their list stands for. A list that the reader of footers takes for one tree is one, and each element has as
/// many inside it as it tells; and one tree that tells so is taken for one.
pub fn schemas_are_trees()
    ensures elements { (es : List SchemaElement) → flat (forest es) ≡ es }
    ensures tells { (es : List SchemaElement) → are_trees 1 es ≡ true → Tells (forest es) }
    ensures tree { (es : List SchemaElement) → are_trees 1 es ≡ true → tree_count (forest es) ≡ 1 }
    ensures told { (f : Forest) → Tells f → tree_count f ≡ 1 → are_trees 1 (flat f) ≡ true }
    ensures one { (f : Forest) → Tells f → forest (flat f) ≡ f }
{}
