//! Reading is the inverse of striping. Each law is the contract of an empty function.

ghost use Rattle.std.specs.Prelude.{◌≡◌, ◌+◌, ℕ, Bool, List, map, true, false, Some};
ghost use Rattle.std.specs.List.{AllByRecursion};
ghost use Rattle.vs_bytes.specs.declared.leaf_columns.Entry.{Entry};
ghost use Rattle.shred_schema.specs.Groups.{Group, width};
ghost use Rattle.shred_schema.specs.Lawful.{HasLeaves, IsWellFormed};
ghost use Rattle.shred_schema.specs.Ranges.{is_among, none_read};
ghost use Rattle.shred_schema.specs.Recs.{Rec, RowRec};
ghost use Rattle.shred_schema.specs.Shapes.{IsOf, RowIsOf};
ghost use Rattle.level_striping.specs.Entries.{entries, row_entries, stripes};
ghost use Rattle.record_assembly.specs.Laws.{Have, LeftOfRecord, LeftOfRow, LeftOfRows};
ghost use Rattle.record_assembly.specs.Reading.{read, row_read, rows_read};
ghost use Rattle.record_assembly.specs.Shown.{shown, row_shown};

/// A record is read exactly where one has the entries, and what is read is what the mask leaves of each such record
/// (the parquet-format README, "Nested Encoding"). The node's leaves begin at leaf `k`, the first entries have
/// repetition level `r`, `m` lists stand round the node and the definition level `d` is reached.
pub fn records_are_read()
    ensures comes { (n : Group) (k : ℕ) (mask : ℕ → Bool) (r m d : ℕ) (es : ℕ → List Entry) (x : Rec) → IsOf n x → Have mask k (width n) es (entries n k r m d x) → read n k mask r m d es ≡ Some (shown n k mask x) }
    ensures only { (n : Group) (k : ℕ) (mask : ℕ → Bool) (r m d : ℕ) (es : ℕ → List Entry) (q : Rec) → read n k mask r m d es ≡ Some q → LeftOfRecord n k mask r m d es q }
{}

/// The same of a row of a column, absent rows and the metadata included, where the mask reads some leaf.
pub fn rows_are_read()
    ensures comes { (optional : Bool) (n : Group) (mask : ℕ → Bool) (r : ℕ) (es : ℕ → List Entry) (row : RowRec) → none_read mask 0 (1 + width n) ≡ false → RowIsOf optional n row → Have mask 0 (1 + width n) es (row_entries optional n r row) → row_read optional n mask r es ≡ Some (row_shown n mask row) }
    ensures only { (optional : Bool) (n : Group) (mask : ℕ → Bool) (r : ℕ) (es : ℕ → List Entry) (q : RowRec) → row_read optional n mask r es ≡ Some q → LeftOfRow optional n mask r es q }
{}

/// The same of all rows of a column: they are read from their stripes.
pub fn columns_are_read()
    ensures comes { (optional : Bool) (n : Group) (mask : ℕ → Bool) (es : ℕ → List Entry) (rows : List RowRec) → none_read mask 0 (1 + width n) ≡ false → AllByRecursion (RowIsOf optional n) rows → Have mask 0 (1 + width n) es (stripes optional n rows) → rows_read optional n mask es ≡ Some (map (row_shown n mask) rows) }
    ensures only { (optional : Bool) (n : Group) (mask : ℕ → Bool) (es : ℕ → List Entry) (qs : List RowRec) → rows_read optional n mask es ≡ Some qs → LeftOfRows optional n mask es qs }
{}

/// Rows of one column with equal stripes in all leaves are equal. So are rows under any node that has a leaf in each
/// object's fields and in each list's elements.
pub fn equal_entries_equal_rows()
    ensures column { (optional : Bool) (n : Group) (rows others : List RowRec) → IsWellFormed n → AllByRecursion (RowIsOf optional n) rows → AllByRecursion (RowIsOf optional n) others → ((j : ℕ) → is_among j 0 (1 + width n) ≡ true → stripes optional n rows j ≡ stripes optional n others j) → rows ≡ others }
    ensures leaves { (optional : Bool) (n : Group) (rows others : List RowRec) → HasLeaves n → AllByRecursion (RowIsOf optional n) rows → AllByRecursion (RowIsOf optional n) others → ((j : ℕ) → is_among j 0 (1 + width n) ≡ true → stripes optional n rows j ≡ stripes optional n others j) → rows ≡ others }
{}
