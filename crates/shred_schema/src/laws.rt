//! The laws of columns and cells. Each is the contract of an empty function.

ghost use Rattle.std.specs.Prelude.{◌≡◌, ◌+◌, ◌≤◌, true, ℕ, Bool, length, Some};
ghost use Rattle.json_tree.specs.Json.{Json};
ghost use Rattle.json_tree.specs.Valid.{IsValid};
ghost use Rattle.vs_bytes.specs.declared.leaf_columns.Cell.{Cell};
ghost use Rattle.vs_bytes.specs.declared.leaf_columns.PrimKind.{PrimKind};
ghost use Rattle.shred_schema.specs.Cells.{IsCell, is_of_prim};
ghost use Rattle.shred_schema.specs.Fits.{fit, tree_of};
ghost use Rattle.shred_schema.specs.Groups.{Group, width, nesting};
ghost use Rattle.shred_schema.specs.Kinds.{kind_read, type_written, note_written};
ghost use Rattle.shred_schema.specs.Lawful.{AllWritten, AreNodes, HasLeaves, IsWritten};
ghost use Rattle.shred_schema.specs.Leaves.{column_leaves};
ghost use Rattle.shred_schema.specs.Projection.{count_read, projected};
ghost use Rattle.shred_schema.specs.Recs.{Rec};
ghost use Rattle.shred_schema.specs.Shapes.{IsOf, HasShape};

/// What fits a kind of cells is what its cell stands for, and this cell is of the kind.
pub fn what_fits_comes_back()
    ensures same { (kind : PrimKind) (json : Json) (cell : Cell) → IsValid json → fit kind json ≡ Some cell → tree_of kind cell ≡ json }
    ensures of { (kind : PrimKind) (json : Json) (cell : Cell) → IsWritten kind → IsValid json → fit kind json ≡ Some cell → is_of_prim kind cell ≡ true }
{}

/// Whether a cell is of a kind is told by the test.
pub fn cells_are_told()
    ensures passes { (kind : PrimKind) (cell : Cell) → IsCell kind cell → is_of_prim kind cell ≡ true }
    ensures is { (kind : PrimKind) (cell : Cell) → is_of_prim kind cell ≡ true → IsCell kind cell }
{}

/// The physical type and the annotation that are written for a kind are read as this kind.
pub fn kinds_read_back()
    ensures { (kind : PrimKind) → IsWritten kind → kind_read (type_written kind) (note_written kind) ≡ kind }
{}

/// What a schema describes may stand in a column. Each node of a column has a leaf, and a column has the metadata and
/// the leaves of its nodes.
pub fn nodes_have_leaves()
    ensures written { (n : Group) → AllWritten n → AreNodes n }
    ensures some { (n : Group) → AreNodes n → 1 ≤ width n }
    ensures all { (n : Group) → AreNodes n → HasLeaves n }
    ensures count { (optional : Bool) (n : Group) → length (column_leaves optional n) ≡ 1 + width n }
{}

/// A projected column has the leaves that are read, and nests no deeper. An object or a list of which no leaf is read
/// isn't there.
pub fn projections_are_narrow()
    ensures leaves { (n : Group) (k : ℕ) (mask : ℕ → Bool) → width (projected n k mask) ≡ count_read mask k (width n) }
    ensures some { (n : Group) (k : ℕ) (mask : ℕ → Bool) → HasLeaves (projected n k mask) }
    ensures deep { (n : Group) (k : ℕ) (mask : ℕ → Bool) → nesting (projected n k mask) ≤ nesting n }
{}

/// A record of a node has the node's shape.
pub fn records_have_shapes()
    ensures { (n : Group) (x : Rec) → IsOf n x → HasShape n x }
{}
