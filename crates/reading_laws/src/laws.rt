//! Each law is the contract of an empty function.

ghost use Rattle.std.specs.Prelude.{◌≡◌, ◌+◌, ◌<◌, ◌≤◌, ℕ, Bool, true, List, length, Option, Some, Result, Ok};
ghost use Rattle.std.specs.List.{AllByRecursion};
ghost use Rattle.json_tree.specs.Json.{Json};
ghost use Rattle.vs_bytes.specs.declared.leaf_columns.Entry.{Entry};
ghost use Rattle.vs_bytes.specs.declared.leaf_columns.Leaf.{Leaf};
ghost use Rattle.vs_bytes.specs.declared.rule.Rule.{Rule};
ghost use Rattle.variant_write.specs.Conditions.{IsWidths};
ghost use Rattle.variant_write.specs.declared.widths.Widths.{Widths};
ghost use Rattle.shred_schema.specs.Groups.{Group, width};
ghost use Rattle.shred_schema.specs.Lawful.{IsWellFormed};
ghost use Rattle.shred_schema.specs.Leaves.{column_leaves};
ghost use Rattle.shred_schema.specs.Projection.{IsClosed};
ghost use Rattle.shred_schema.specs.Ranges.{is_among};
ghost use Rattle.shred_schema.specs.Recs.{Rec, RowRec};
ghost use Rattle.shred_schema.specs.Shapes.{HasShape, RowHasShape, RowIsOf};
ghost use Rattle.schema_parsing.specs.Grammar.{IsSchema};
ghost use Rattle.level_striping.specs.Entries.{stripes};
ghost use Rattle.record_assembly.specs.Reading.{rows_read};
ghost use Rattle.record_assembly.specs.Shown.{shown, row_shown};
ghost use Rattle.striping_laws.specs.Rows.{AreWritten, texts_len, max_texts_len};
ghost use Rattle.unshredder.specs.Rows.{row_seen, row_of};
ghost use Rattle.group_reading.specs.ChunkEntries.{has_rows};
ghost use Rattle.group_reading.specs.GroupRows.{rows_seen, group_seen};
ghost use Rattle.reading_laws.specs.Documents.{IsDocument, shredded_rows};
ghost use Rattle.reading_laws.specs.GroupRecords.{HasRecords};
ghost use Rattle.reading_laws.specs.FullMasks.{ReadsAll};
ghost use Rattle.reading_laws.specs.RowsMeant.{rows_meant, rows_of};
ghost use Rattle.reading_laws.specs.WrittenChunks.{written_chunk_entries};

/// What a mask leaves of a record or a row keeps its shape. So what an assembler gives can be unshredded.
pub fn shapes_stay()
    ensures record { (n : Group) (k : ℕ) (mask : ℕ → Bool) (x : Rec) → HasShape n x → HasShape n (shown n k mask x) }
    ensures row { (n : Group) (mask : ℕ → Bool) (row : RowRec) → RowHasShape n row → RowHasShape n (row_shown n mask row) }
{}

/// A mask that reads each leaf leaves all of a row, and the row means what it means where each leaf is read.
pub fn full_masks_read_all()
    ensures shown { (mask : ℕ → Bool) (optional : Bool) (n : Group) (row : RowRec) → ReadsAll mask n → IsWellFormed n → RowIsOf optional n row → row_shown n mask row ≡ row }
    ensures seen { (mask : ℕ → Bool) (n : Group) (row : RowRec) → ReadsAll mask n → row_seen mask n row ≡ row_of n row }
{}

/// What a closed mask leaves of a row means what the row means under this mask. A mask that reads a value and not the
/// metadata leaves no names to read the value by.
pub fn shown_rows_are_seen_alike()
    ensures { (mask : ℕ → Bool) (n : Group) (row : RowRec) → IsClosed mask n → row_seen mask n (row_shown n mask row) ≡ row_seen mask n row }
{}

/// The rows of a group, of which the first is row k, are those of the records that are read from its entries, under any
/// mask; and the first rule that one of these records violates is the rows' first.
pub fn rows_are_seen_as_read()
    ensures { (mask : ℕ → Bool) (optional : Bool) (n : Group) (records : List RowRec) (k : ℕ) (es : ℕ → List Entry) → rows_read optional n mask es ≡ Some records → rows_seen mask optional n (length records) k es ≡ rows_meant mask n k records }
{}

/// Where each leaf is read, and the chunks give the stripes of records, the rows of a group are what these records mean.
pub fn groups_have_their_records()
    ensures { (mask : ℕ → Bool) (optional : Bool) (n : Group) (records : List RowRec) (chunk : ℕ → Result (List Entry) Rule) → ReadsAll mask n → IsWellFormed n → AllByRecursion (RowIsOf optional n) records → ((j : ℕ) → is_among j 0 (1 + width n) ≡ true → chunk j ≡ Ok (stripes optional n records j)) → group_seen mask optional n (length records) chunk ≡ rows_of n records }
{}

/// The rows that a group gives, where each leaf is read and each chunk has as many rows as the group, are what records
/// of the column mean, whose stripes the chunks have. There is one list of them.
pub fn seen_rows_have_records()
    ensures there { (mask : ℕ → Bool) (optional : Bool) (n : Group) (count : ℕ) (chunk : ℕ → Result (List Entry) Rule) (rows : List (Option Json)) → ReadsAll mask n → IsWellFormed n → ((j : ℕ) (entries : List Entry) → is_among j 0 (1 + width n) ≡ true → chunk j ≡ Ok entries → has_rows count entries ≡ true) → group_seen mask optional n count chunk ≡ Ok rows → HasRecords optional n count chunk rows }
    ensures one { (optional : Bool) (n : Group) (count : ℕ) (chunk : ℕ → Result (List Entry) Rule) (rows others : List (Option Json)) → IsWellFormed n → (a : HasRecords optional n count chunk rows) (b : HasRecords optional n count chunk others) → a.records ≡ b.records }
{}

/// A row group that is written of documents is read back: their records mean the documents, each chunk has the stripes
/// of the records, as many as its metadata says and as many rows as the group, and the rows of the group are the
/// documents. A leaf's number is below the number of leaves, so what stands in for one that isn't there decides nothing.
pub fn written_groups_read_back()
    ensures records { (optional : Bool) (text : List ℕ) (schema : Group) (widths : Widths) (rows : List (Option Json)) → IsSchema text schema → IsWidths widths → AllByRecursion (IsDocument optional) rows → rows_of schema (shredded_rows schema widths rows) ≡ Ok rows }
    ensures stripes { (mask : ℕ → Bool) (optional : Bool) (text : List ℕ) (schema : Group) (widths : Widths) (rows : List (Option Json)) → ReadsAll mask schema → IsSchema text schema → IsWidths widths → AllByRecursion (IsDocument optional) rows → group_seen mask optional schema (length rows) (λ j. Ok (stripes optional schema (shredded_rows schema widths rows) j)) ≡ Ok rows }
    ensures chunk { (optional : Bool) (n : Group) (total : ℕ) (records : List RowRec) (j page_bytes : ℕ) (other : Leaf) → IsWellFormed n → AreWritten optional n total records → total ≤ max_texts_len → j < length (column_leaves optional n) → written_chunk_entries optional n page_bytes records other j ≡ Ok (stripes optional n records j) }
    ensures group { (mask : ℕ → Bool) (optional : Bool) (text : List ℕ) (schema : Group) (widths : Widths) (rows : List (Option Json)) (page_bytes : ℕ) (other : Leaf) → ReadsAll mask schema → IsSchema text schema → IsWidths widths → AllByRecursion (IsDocument optional) rows → texts_len rows ≤ max_texts_len → group_seen mask optional schema (length rows) (λ j. written_chunk_entries optional schema page_bytes (shredded_rows schema widths rows) other j) ≡ Ok rows }
{}
