//! How many entries there are, beside the texts that records were made of. The law is the contract of an empty function.

ghost use Rattle.std.specs.Prelude.{◌+◌, ℕ, Bool, List};
ghost use Rattle.shred_schema.specs.Groups.{Group};
ghost use Rattle.shred_schema.specs.Recs.{Rec, RowRec};
ghost use Rattle.level_striping.specs.Entries.{entries, row_entries, stripes};
ghost use Rattle.level_striping.specs.Sizes.{AreFew, IsWithin, RowIsWithin, RowsAreWithin};

/// In each leaf a record has no more entries than its text has bytes, and they weigh at most 20 times as much. For a row
/// 1 is added to the text's length, and for all rows of a column these lengths are summed.
pub fn entries_are_few()
    ensures record_entries { (n : Group) (size k r m d : ℕ) (x : Rec) (j : ℕ) → IsWithin n size x → AreFew size (entries n k r m d x j) }
    ensures row_entries { (optional : Bool) (n : Group) (size r : ℕ) (row : RowRec) (j : ℕ) → RowIsWithin n size row → AreFew (size + 1) (row_entries optional n r row j) }
    ensures stripes { (optional : Bool) (n : Group) (total : ℕ) (rows : List RowRec) (j : ℕ) → RowsAreWithin n total rows → AreFew total (stripes optional n rows j) }
{}
