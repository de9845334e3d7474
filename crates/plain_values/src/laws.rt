//! What is written decodes to its cells. The law is a contract of an empty function.

ghost use Rattle.std.specs.Prelude.{◌≡◌, ◌++◌, ℕ, List, length, All, Ok};
ghost use Rattle.vs_bytes.specs.declared.leaf_columns.Cell.{Cell};
ghost use Rattle.vs_bytes.specs.declared.leaf_columns.Phys.{Phys};
ghost use Rattle.vs_bytes.specs.declared.leaf_columns.PrimKind.{PrimKind};
ghost use Rattle.plain_values.specs.Plain.{plain_cells};
ghost use Rattle.plain_values.specs.Written.{IsCell, plain_written};

/// The bytes that are written for cells of a leaf column decode to the cells, whatever bytes follow them.
pub fn written_cells_read_back()
    ensures { (type : Phys) (kind : PrimKind) (cs : List Cell) (more : List ℕ) → All (λ c. IsCell type kind c) cs → plain_cells type kind (length cs) (plain_written type cs ++ more) ≡ Ok cs }
{}
