//! Each law is the contract of an empty function.

ghost use Rattle.std.specs.Prelude.{◌≡◌, ℕ, List};
ghost use Rattle.query_tree.specs.Asked.{Asked};
ghost use Rattle.path_query.specs.Answer.{answer_of};
ghost use Rattle.store_file.specs.FileCalls.{rows_under, lines_seen};
ghost use Rattle.store_file.specs.Masks.{needed};
ghost use Rattle.store_file.specs.declared.store_file.StoreFile.{StoreFile};

/// The lines that are seen of a file are the answer over the rows that are seen of it where the leaves are read that the
/// query needs, and end at the same violation.
#[tactic(auto, using(crate::proofs::RowLines::lines_answer))]
pub fn lines_are_answers()
    ensures { (f : StoreFile) (asked : Asked) (file : List ℕ) → lines_seen f asked file ≡ record { found = answer_of asked (rows_under f (needed f asked) file).found; stop = (rows_under f (needed f asked) file).stop } }
{}
