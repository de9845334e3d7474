//! Each law is the contract of an empty function.

ghost use Rattle.std.specs.Prelude.{◌≡◌, ◌+◌, ◌*◌, ◌^◌, ◌<◌, ◌≤◌, ◌==◌, ℕ, Bool, List, [], ◌∷◌, ◌++◌, length, map, slice_index_or, Option, Some};
ghost use Rattle.std.specs.List.{All, AllByRecursion, count_by};
ghost use Rattle.json_tree.specs.Json.{Json};
ghost use Rattle.json_tree.specs.Text.{text_of};
ghost use Rattle.json_tree.specs.Valid.{IsValid};
ghost use Rattle.vs_bytes.specs.declared.leaf_columns.Entry.{Entry};
ghost use Rattle.vs_bytes.specs.declared.leaf_columns.Leaf.{Leaf};
ghost use Rattle.variant_write.specs.Conditions.{IsWidths, max_text_len};
ghost use Rattle.variant_write.specs.declared.widths.Widths.{Widths};
ghost use Rattle.pages.specs.Entries.{IsEntry};
ghost use Rattle.pages.specs.Written.{weights};
ghost use Rattle.chunks.specs.PageCuts.{chunk_written};
ghost use Rattle.shred_schema.specs.Groups.{Group, width};
ghost use Rattle.shred_schema.specs.Lawful.{AllWritten, IsWellFormed};
ghost use Rattle.shred_schema.specs.Leaves.{column_leaves};
ghost use Rattle.shred_schema.specs.Recs.{RowRec};
ghost use Rattle.shred_schema.specs.Shapes.{RowIsOf};
ghost use Rattle.schema_parsing.specs.Grammar.{IsSchema};
ghost use Rattle.shredder.specs.Shredded.{by_names, shredded, shred_row};
ghost use Rattle.level_striping.specs.Entries.{stripes};
ghost use Rattle.level_striping.specs.Sizes.{IsWithin, RowIsWithin};
ghost use Rattle.striping_laws.specs.Fitting.{FitsLeaves, RowFitsLeaves};
ghost use Rattle.striping_laws.specs.Rows.{AreWritten, CanBeRow, text_len, texts_len, max_texts_len, min_page_bytes, BeginWithRow};

/// What stands in the record of a value fits the leaves of its node: each value is short enough for a BYTE_ARRAY, and
/// each cell is one of the physical type in which its kind is written.
pub fn records_fit_their_leaves()
    ensures record_fits { (names : List (List ℕ)) (widths : Widths) (n : Group) (tree : Json) → AllWritten n → IsWidths widths → IsValid tree → length (text_of tree) ≤ max_text_len → FitsLeaves n (shredded (by_names names widths) n tree) }
    ensures row_fits { (widths : Widths) (n : Group) (tree : Json) → AllWritten n → IsWidths widths → IsValid tree → length (text_of tree) ≤ max_text_len → RowFitsLeaves n (shred_row n (Some tree) widths) }
{}

/// The record of a value is as small as the canonical text of the value allows.
pub fn records_are_within_their_texts()
    ensures record_within { (names : List (List ℕ)) (widths : Widths) (n : Group) (tree : Json) → IsWidths widths → IsWithin n (length (text_of tree)) (shredded (by_names names widths) n tree) }
    ensures row_within { (widths : Widths) (n : Group) (row : Option Json) → IsWidths widths → RowIsWithin n (text_len row) (shred_row n row widths) }
{}

/// Rows that are shredded by a schema can be written, alone, after others, and all together.
pub fn shredded_rows_are_written()
    ensures none { (optional : Bool) (n : Group) → AreWritten optional n 0 [] }
    ensures more { (optional : Bool) (text : List ℕ) (schema : Group) (widths : Widths) (total : ℕ) (rows : List RowRec) (row : Option Json) → IsSchema text schema → IsWidths widths → CanBeRow optional row → AreWritten optional schema total rows → AreWritten optional schema (total + (text_len row + 1)) (rows ++ shred_row schema row widths ∷ []) }
    ensures all { (optional : Bool) (text : List ℕ) (schema : Group) (widths : Widths) (rows : List (Option Json)) → IsSchema text schema → IsWidths widths → AllByRecursion (CanBeRow optional) rows → AreWritten optional schema (texts_len rows) (map (λ row. shred_row schema row widths) rows) }
{}

/// The entries of rows in a leaf are entries of this leaf: no level is above its maximum, and a value of its type and
/// kind stands exactly at the maximum definition level. Each row begins once, with repetition level 0.
pub fn entries_are_of_their_leaves()
    ensures entries { (optional : Bool) (n : Group) (total : ℕ) (rows : List RowRec) (j : ℕ) (other : Leaf) → AreWritten optional n total rows → j < length (column_leaves optional n) → All (IsEntry (slice_index_or (column_leaves optional n) j other)) (stripes optional n rows j) }
    ensures first { (optional : Bool) (n : Group) (rows : List RowRec) (j : ℕ) → AllByRecursion (RowIsOf optional n) rows → 0 < length rows → j < 1 + width n → BeginWithRow (stripes optional n rows j) }
    ensures rows { (optional : Bool) (n : Group) (rows : List RowRec) (j : ℕ) → AllByRecursion (RowIsOf optional n) rows → j < 1 + width n → count_by (λ e. e.rep == 0) (stripes optional n rows j) ≡ length rows }
    ensures levels { (optional : Bool) (n : Group) (j : ℕ) (other : Leaf) → IsWellFormed n → j < length (column_leaves optional n) → ((slice_index_or (column_leaves optional n) j other).rep < 2 ^ 16) × ((slice_index_or (column_leaves optional n) j other).def < 2 ^ 16) }
{}

/// In each leaf, rows have no more entries than their texts have bytes, with 1 more for each row, and these weigh at
/// most 20 times as much.
pub fn entries_are_within_their_texts()
    ensures few { (optional : Bool) (n : Group) (total : ℕ) (rows : List RowRec) (j : ℕ) → AreWritten optional n total rows → length (stripes optional n rows j) ≤ total }
    ensures light { (optional : Bool) (n : Group) (total : ℕ) (rows : List RowRec) (j : ℕ) (other : Leaf) → AreWritten optional n total rows → j < length (column_leaves optional n) → weights (slice_index_or (column_leaves optional n) j other).phys (stripes optional n rows j) ≤ 20 * total }
{}

/// A chunk that is written is at most a fifth longer than its entries weigh, and so that of a row group is shorter than
/// 1 GiB.
pub fn chunks_are_short()
    ensures beside_weights { (leaf : Leaf) (page_bytes : ℕ) (entries : List Entry) → min_page_bytes ≤ page_bytes → 5 * length (chunk_written leaf page_bytes entries) ≤ 6 * weights leaf.phys entries + 1024 }
    ensures of_groups { (optional : Bool) (n : Group) (total : ℕ) (rows : List RowRec) (j page_bytes : ℕ) (other : Leaf) → AreWritten optional n total rows → total ≤ max_texts_len → min_page_bytes ≤ page_bytes → j < length (column_leaves optional n) → length (chunk_written (slice_index_or (column_leaves optional n) j other) page_bytes (stripes optional n rows j)) < 2 ^ 30 }
{}
