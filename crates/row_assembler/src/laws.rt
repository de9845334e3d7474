//! What is read under a mask is read of the projected column. Each law is the contract of an empty function.

ghost use Rattle.std.specs.Prelude.{◌≡◌, ◌+◌, ℕ, Bool, true, false};
ghost use Rattle.vs_bytes.specs.declared.leaf_columns.Entry.{Entry};
ghost use Rattle.std.specs.Prelude.{List};
ghost use Rattle.shred_schema.specs.Groups.{Group, width};
ghost use Rattle.shred_schema.specs.Projection.{place, projected};
ghost use Rattle.shred_schema.specs.Ranges.{every, is_among};
ghost use Rattle.record_assembly.specs.Cuts.{first_item, later_items};
ghost use Rattle.record_assembly.specs.Reading.{are_nil, read, row_read, rows_read, with_item};
ghost use Rattle.row_assembler.specs.ProjectedRows.{row_kept};

/// A record or a row that is read under a mask is read of the projected column, where the leaves that are read stand
/// at their places among one another. So leaves that aren't read decide nothing.
pub fn projected_columns_are_read()
    ensures records { (n : Group) (k : ℕ) (mask : ℕ → Bool) (r m d : ℕ) (es fs : ℕ → List Entry) → ((j : ℕ) → is_among j k (width n) ≡ true → mask j ≡ true → fs (place mask j) ≡ es j) → read (projected n k mask) (place mask k) every r m d fs ≡ read n k mask r m d es }
    ensures rows { (optional : Bool) (n : Group) (mask : ℕ → Bool) (es fs : ℕ → List Entry) → ((j : ℕ) → is_among j 0 (1 + width n) ≡ true → mask j ≡ true → fs (place mask j) ≡ es j) → row_kept (mask 0) optional (projected n 1 mask) fs ≡ row_read optional n mask 0 es }
{}

/// All rows of a column are the first one and those after it.
pub fn rows_go_on()
    ensures { (optional : Bool) (n : Group) (mask : ℕ → Bool) (es : ℕ → List Entry) → are_nil mask 0 (1 + width n) es ≡ false → rows_read optional n mask es ≡ with_item (row_read optional n mask 0 (λ j. first_item 0 (es j))) (rows_read optional n mask (λ j. later_items 0 (es j))) }
{}
