//! What is written reads back. Each law is a contract of an empty function.

ghost use Rattle.std.specs.Prelude.{◌≡◌, ◌++◌, ℕ, List, Some, Ok};
ghost use Rattle.thrift_compact.specs.Numbers.{mapped};
ghost use Rattle.thrift_compact.specs.Trees.{struct_at, known_at};
ghost use Rattle.thrift_compact.specs.Coded.{fields_coded};
ghost use Rattle.schema_elements.specs.LogicalTypes.{logical_shapes, logical_of};
ghost use Rattle.schema_elements.specs.SchemaElements.{element_shapes, element_of};
ghost use Rattle.schema_elements.specs.ElementWriting.{logical_fields, element_fields, IsLogical, ElementReadsBack};
ghost use Rattle.schema_elements.specs.declared.logical_types.Logical.{Logical};
ghost use Rattle.schema_elements.specs.declared.elements.SchemaElement.{SchemaElement};

/// The bytes that `write_struct` writes for logical types and schema elements mean these for `read_struct`, whatever
/// bytes follow them.
pub fn elements_read_back()
    ensures logical_types { (l : Logical) (rest : List ℕ) → IsLogical l → mapped logical_of (struct_at (known_at logical_shapes) (fields_coded 0 (logical_fields l) ++ rest)) ≡ Ok (Some l, rest) }
    ensures elements { (e : SchemaElement) (rest : List ℕ) → ElementReadsBack e → mapped element_of (struct_at (known_at element_shapes) (fields_coded 0 (element_fields e) ++ rest)) ≡ Ok (Some e, rest) }
{}
