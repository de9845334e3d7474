//! Each law is the contract of an empty function.

ghost use Rattle.std.specs.Prelude.{◌≡◌, ℕ, Bool, List, Option, Result, Ok};
ghost use Rattle.json_tree.specs.Json.{Json};
ghost use Rattle.vs_bytes.specs.declared.leaf_columns.Entry.{Entry};
ghost use Rattle.vs_bytes.specs.declared.rule.Rule.{Rule};
ghost use Rattle.query_tree.specs.Asked.{Asked};
ghost use Rattle.shred_schema.specs.Groups.{Group};
ghost use Rattle.shred_schema.specs.Lawful.{IsWellFormed};
ghost use Rattle.shred_schema.specs.Ranges.{every};
ghost use Rattle.shred_schema.specs.Recs.{RowRec};
ghost use Rattle.unshredder.specs.Rows.{row_seen, row_of};
ghost use Rattle.group_reading.specs.GroupRows.{group_seen};
ghost use Rattle.chunk_pruning.specs.Needs.{ReadsNeeded};
ghost use Rattle.pruning_laws.specs.Kept.{HaveRows, KeepsRow, KeepsRows};

/// A row that violates no rule violates none where only the leaves that a query needs are read, or more of them, and the
/// query prints the same of it. So it does of a row group, whose chunks have as many rows as the group.
#[tactic(auto, using(crate::proofs::RowsKept::row_kept, crate::proofs::GroupsKept::group_kept))]
pub fn needed_leaves_answer()
    ensures row { (asked : Asked) (mask : ℕ → Bool) (n : Group) (row : RowRec) (found : Option Json) → ReadsNeeded asked n mask → IsWellFormed n → row_of n row ≡ Ok found → KeepsRow asked (row_seen mask n row) found }
    ensures group { (asked : Asked) (mask : ℕ → Bool) (optional : Bool) (n : Group) (count : ℕ) (chunk : ℕ → Result (List Entry) Rule) (rows : List (Option Json)) → ReadsNeeded asked n mask → IsWellFormed n → HaveRows n count chunk → group_seen every optional n count chunk ≡ Ok rows → KeepsRows asked (group_seen mask optional n count chunk) rows }
{}
