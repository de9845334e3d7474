//! What is shredded comes back. Each law is the contract of an empty function.

ghost use Rattle.std.specs.Prelude.{◌≡◌, ◌≤◌, ℕ, Bool, true, List, length, None, Some, Ok};
ghost use Rattle.json_tree.specs.Json.{Json, depth_of};
ghost use Rattle.json_tree.specs.Text.{text_of};
ghost use Rattle.json_tree.specs.Valid.{IsValid};
ghost use Rattle.variant_read.specs.Meaning.{max_nesting};
ghost use Rattle.variant_write.specs.Conditions.{IsWidths, max_text_len};
ghost use Rattle.variant_write.specs.declared.widths.Widths.{Widths};
ghost use Rattle.variant_laws.specs.Writable.{IsWritable};
ghost use Rattle.shred_schema.specs.Groups.{Group, group, free};
ghost use Rattle.shred_schema.specs.Lawful.{AllWritten};
ghost use Rattle.shred_schema.specs.Ranges.{every};
ghost use Rattle.shred_schema.specs.Shapes.{IsOf, HasShape, RowIsOf};
ghost use Rattle.shred_schema.specs.declared.nodes.Slot.TheVariants.{Required};
ghost use Rattle.schema_parsing.specs.Grammar.{IsSchema};
ghost use Rattle.shredder.specs.Shredded.{by_names, shredded, shred_row};
ghost use Rattle.unshredder.specs.Rows.{row_of};
ghost use Rattle.unshredder.specs.Seen.{seen};
ghost use Rattle.shredding_laws.specs.Slots.{AllOptional};

/// The record of a value means this value by the names by which its bytes were written, where each leaf is read
/// (VariantShredding.md, "Reconstructing a Shredded Variant"). The node's leaves may begin anywhere, and the node may
/// stand inside `above` objects and lists, which count for the depth.
pub fn what_is_shredded_comes_back()
    ensures { (names : List (List ℕ)) (widths : Widths) (node : Group) (tree : Json) (leaf above : ℕ) → AllWritten node → IsWidths widths → IsWritable names above tree → seen every names node leaf above (shredded (by_names names widths) node tree) ≡ Ok (Some tree) }
{}

/// The row record of a value is the row of this value, and that of no value is absent.
pub fn rows_come_back()
    ensures present { (node : Group) (tree : Json) (widths : Widths) → AllWritten node → IsWidths widths → IsValid tree → depth_of tree ≤ max_nesting → length (text_of tree) ≤ max_text_len → row_of node (shred_row node (Some tree) widths) ≡ Ok (Some tree) }
    ensures absent { (node : Group) (widths : Widths) → row_of node (shred_row node None widths) ≡ Ok None }
{}

/// The record of a value has the shape of the node for which it was shredded. It is a record of the node, and so can
/// be written, where each value of the node is optional; where the node has no typed part, it is one where the value is
/// required, too.
pub fn records_are_of_their_node()
    ensures shape { (code : Json → List ℕ) (node : Group) (tree : Json) → AllWritten node → IsValid tree → HasShape node (shredded code node tree) }
    ensures optional { (code : Json → List ℕ) (node : Group) (tree : Json) → AllOptional node → IsValid tree → IsOf node (shredded code node tree) }
    ensures required { (code : Json → List ℕ) (tree : Json) → IsOf (group Required free) (shredded code (group Required free) tree) }
{}

/// The row record of a value is one of a column that the schema describes, optional or not, and that of no value is one
/// of an optional column. So what is shredded by a schema can be written.
pub fn rows_are_of_their_schema()
    ensures present { (optional : Bool) (text : List ℕ) (schema : Group) (tree : Json) (widths : Widths) → IsSchema text schema → IsValid tree → RowIsOf optional schema (shred_row schema (Some tree) widths) }
    ensures absent { (schema : Group) (widths : Widths) → RowIsOf true schema (shred_row schema None widths) }
{}
