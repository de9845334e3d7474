//! What holds of every call on a file.

ghost use Rattle.std.specs.Prelude.{◌≡◌, Result};
ghost use Rattle.command_parsing.specs.Commands.{FileQuery};
ghost use Rattle.command_words.specs.Check.{CheckGiven};
ghost use Rattle.file_answers.specs.Answering.{AnswersQuery};
ghost use Rattle.file_answers.specs.Beginning.{Readout, HasFault};
ghost use Rattle.file_answers.specs.Completing.{IsAnswerable, IsJudgeable, IsDone};
ghost use Rattle.file_answers.specs.Judging.{JudgesFile};
ghost use Rattle.file_answers.specs.declared.file_error.FileError.{FileError};

/// Where the file is there, violates nothing and no device fails, the call does its work, or there is
/// no memory.
pub fn sound_files_are_answered()
    ensures query { (query : FileQuery) (before after : Readout) (done : Result (Unit {0}) FileError) → AnswersQuery query before after done → IsAnswerable query before → (HasFault before after → ⊥) → IsDone done }
    ensures check { (check : CheckGiven) (before after : Readout) (done : Result (Unit {0}) FileError) → JudgesFile check before after done → IsJudgeable check before → (HasFault before after → ⊥) → IsDone done }
{}

/// No file changes.
pub fn files_stay()
    ensures query { (query : FileQuery) (before after : Readout) (done : Result (Unit {0}) FileError) → AnswersQuery query before after done → after.shelf.files ≡ before.shelf.files }
    ensures check { (check : CheckGiven) (before after : Readout) (done : Result (Unit {0}) FileError) → JudgesFile check before after done → after.shelf.files ≡ before.shelf.files }
{}
