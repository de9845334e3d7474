//! Each law is the contract of an empty function.

ghost use Rattle.std.specs.Prelude.{◌≡◌, ◌⊎◌, ◌↔◌, ℕ, true, List, length, Option, Some, Result, Ok, Err};
ghost use Rattle.std.specs.Io.KnownBytes.{Appends};
ghost use Rattle.std.specs.List.{AllByRecursion};
ghost use Rattle.json_tree.specs.Json.{Json};
ghost use Rattle.shred_schema.specs.Groups.{Group};
ghost use Rattle.schema_parsing.specs.Grammar.{IsSchema};
ghost use Rattle.query_tree.specs.Asked.{Asked};
ghost use Rattle.path_query.specs.Answer.{answer_of};
ghost use Rattle.command_words.specs.Check.{CheckGiven};
ghost use Rattle.command_parsing.specs.Commands.{Load, FileQuery, AskLoad};
ghost use Rattle.open_group.specs.declared.settings.Settings.{Settings};
ghost use Rattle.open_group.specs.Filling.{is_full};
ghost use Rattle.open_group.specs.OpenGroups.{IsSettings};
ghost use Rattle.store_write.specs.Cutting.{cut_of, groups_of};
ghost use Rattle.store_write.specs.Made.{column_name, made};
ghost use Rattle.thrift_footer.specs.Opening.{IsFile};
ghost use Rattle.reading_laws.specs.Documents.{IsDocument};
ghost use Rattle.store_laws.specs.ValidFiles.{IsValid};
ghost use Rattle.store_file.specs.Beginning.{IsUsable};
ghost use Rattle.store_file.specs.Masks.{needed};
ghost use Rattle.store_file.specs.SeenGroups.{all_found};
ghost use Rattle.store_file.specs.FileCalls.{Counts, groups_in, query_plan, check_plan, rows_seen, lines_seen};
ghost use Rattle.store_file.specs.declared.file_faults.Violation.{Violation};
ghost use Rattle.store_file.specs.declared.store_file.StoreFile.{StoreFile};
ghost use Rattle.file_answers.specs.Answering.{AnswersQuery};
ghost use Rattle.file_answers.specs.Beginning.{Readout, HasFault};
ghost use Rattle.file_answers.specs.Completing.{IsAnswerable, IsJudgeable, IsDone, QueryViolates, CheckViolates};
ghost use Rattle.file_answers.specs.Judging.{JudgesFile, IsWhole, count_line};
ghost use Rattle.file_answers.specs.declared.file_error.FileError.{FileError};
ghost use Rattle.file_answers.specs.declared.file_error.FileError.TheVariants.{Violated, NoMemory};
ghost use Rattle.document_loading.specs.Loading.{Intake, settings_of};
ghost use Rattle.document_loading.specs.Taken.{rows_of};
ghost use Rattle.variant_store.specs.Answer.{answer_over};
ghost use Rattle.variant_store.specs.Stream.{scan};
ghost use Rattle.variant_store.specs.Streaming.{Streams};
ghost use Rattle.variant_store.specs.World.{World, Pipe, pipe_in, intake_in, readout_in};
ghost use Rattle.variant_store.specs.Commands.{prints, loads, queries, checks, AskFor};
ghost use Rattle.variant_store.specs.Top.{Works};
ghost use Rattle.shelf.specs.Storage.{Files};
ghost use Rattle.file_laws.specs.Begun.{IsBegunFrom, CanBegin};
ghost use Rattle.file_laws.specs.Loaded.{CanLoad, IsLoaded, FollowsLoad, OfDocuments, GainTheSame, HoldsAll};

/// What is seen of a file goes by its bytes and the name of its column alone: files that were begun from the same bytes, at
/// the column of one name, have the same groups, rows and lines, and where they have one name a query asks for the same
/// ranges of them, and so does a check.
pub fn bytes_decide_what_is_seen()
    ensures groups { (column bytes : List ℕ) (f g : StoreFile) → IsBegunFrom column bytes f → IsBegunFrom column bytes g → groups_in f ≡ groups_in g }
    ensures rows { (column bytes : List ℕ) (f g : StoreFile) → IsBegunFrom column bytes f → IsBegunFrom column bytes g → rows_seen f bytes ≡ rows_seen g bytes }
    ensures lines { (column bytes : List ℕ) (asked : Asked) (f g : StoreFile) → IsBegunFrom column bytes f → IsBegunFrom column bytes g → lines_seen f asked bytes ≡ lines_seen g asked bytes }
    ensures query { (column bytes : List ℕ) (asked : Asked) (f g : StoreFile) → IsBegunFrom column bytes f → IsBegunFrom column bytes g → f.name ≡ g.name → query_plan f asked ≡ query_plan g asked }
    ensures check { (column bytes : List ℕ) (f g : StoreFile) → IsBegunFrom column bytes f → IsBegunFrom column bytes g → f.name ≡ g.name → check_plan f ≡ check_plan g }
{}

/// A check finds one first violation of a file at a column at most, and so does a query, which judges of the column what it
/// reads. Where a query finds one, so does a check, though not always the same. They find the same where the file doesn't
/// open or lacks the column, and where the query reads all leaves of the column.
/// A call that answers a violation answers this one, and no call on such a file is done: where no device fails it answers
/// the violation, or has no memory.
pub fn violations_are_one()
    ensures query_one { (query : FileQuery) (bytes : List ℕ) (v w : Violation) → QueryViolates query bytes v → QueryViolates query bytes w → v ≡ w }
    ensures check_one { (check : CheckGiven) (bytes : List ℕ) (v w : Violation) → CheckViolates check bytes v → CheckViolates check bytes w → v ≡ w }
    ensures check_finds { (query : FileQuery) (check : CheckGiven) (bytes : List ℕ) (v : Violation) → query.column ≡ check.column → QueryViolates query bytes v → (w : Violation) × CheckViolates check bytes w }
    ensures unbegun { (query : FileQuery) (check : CheckGiven) (bytes : List ℕ) (v : Violation) → query.column ≡ check.column → (CanBegin query.column bytes → ⊥) → (QueryViolates query bytes v ↔ CheckViolates check bytes v) }
    ensures all_leaves { (query : FileQuery) (check : CheckGiven) (bytes : List ℕ) (f : StoreFile) (v : Violation) → query.column ≡ check.column → IsBegunFrom query.column bytes f → needed f query.asked ≡ f.mask → (QueryViolates query bytes v ↔ CheckViolates check bytes v) }
    ensures query_names { (query : FileQuery) (before after : Readout) (bytes : List ℕ) (v : Violation) → IsFile before.shelf.files query.file bytes → AnswersQuery query before after (Err (Violated v)) → QueryViolates query bytes v }
    ensures check_names { (check : CheckGiven) (before after : Readout) (bytes : List ℕ) (v : Violation) → IsFile before.shelf.files check.file bytes → JudgesFile check before after (Err (Violated v)) → CheckViolates check bytes v }
    ensures query_not_done { (query : FileQuery) (before after : Readout) (bytes : List ℕ) (v : Violation) → IsFile before.shelf.files query.file bytes → QueryViolates query bytes v → AnswersQuery query before after (Ok tt) → ⊥ }
    ensures check_not_done { (check : CheckGiven) (before after : Readout) (bytes : List ℕ) (v : Violation) → IsFile before.shelf.files check.file bytes → CheckViolates check bytes v → JudgesFile check before after (Ok tt) → ⊥ }
    ensures query_answers { (query : FileQuery) (before after : Readout) (done : Result (Unit {0}) FileError) (bytes : List ℕ) (v : Violation) → IsFile before.shelf.files query.file bytes → QueryViolates query bytes v → AnswersQuery query before after done → (HasFault before after → ⊥) → (done ≡ Err (Violated v)) ⊎ (done ≡ Err NoMemory) }
    ensures check_answers { (check : CheckGiven) (before after : Readout) (done : Result (Unit {0}) FileError) (bytes : List ℕ) (v : Violation) → IsFile before.shelf.files check.file bytes → CheckViolates check bytes v → JudgesFile check before after done → (HasFault before after → ⊥) → (done ≡ Err (Violated v)) ⊎ (done ≡ Err NoMemory) }
{}

/// A valid file can be begun, and its rows are seen to their end. A query over it has nothing to refuse, nor has a check,
/// and where they are done they print the lines of these rows, and how many there are.
/// Of any file whose rows are seen to their end, as where a check finds no violation, a query sees the lines of all rows.
pub fn valid_files_are_seen()
    ensures begins { (column bytes : List ℕ) (rows : List (Option Json)) → IsValid bytes column rows → CanBegin column bytes }
    ensures rows { (column bytes : List ℕ) (rows : List (Option Json)) (f : StoreFile) → IsValid bytes column rows → IsBegunFrom column bytes f → rows_seen f bytes ≡ all_found rows }
    ensures lines { (column bytes : List ℕ) (rows : List (Option Json)) (asked : Asked) (f : StoreFile) → IsValid bytes column rows → IsBegunFrom column bytes f → lines_seen f asked bytes ≡ all_found (answer_of asked rows) }
    ensures as_rows { (f : StoreFile) (asked : Asked) (bytes : List ℕ) → IsUsable f → (rows : List (Option Json)) → rows_seen f bytes ≡ all_found rows → lines_seen f asked bytes ≡ all_found (answer_of asked rows) }
    ensures counts { (column bytes : List ℕ) (rows : List (Option Json)) (f : StoreFile) (valid : IsValid bytes column rows) → IsBegunFrom column bytes f → Counts f bytes (length valid.opened.meta.row_groups) (length rows) }
    ensures answerable { (query : FileQuery) (before : Readout) (bytes : List ℕ) (rows : List (Option Json)) → IsFile before.shelf.files query.file bytes → IsValid bytes query.column rows → IsAnswerable query before }
    ensures judgeable { (check : CheckGiven) (before : Readout) (bytes : List ℕ) (rows : List (Option Json)) → IsFile before.shelf.files check.file bytes → IsValid bytes check.column rows → IsJudgeable check before }
    ensures prints { (query : FileQuery) (before after : Readout) (bytes : List ℕ) (rows : List (Option Json)) → IsFile before.shelf.files query.file bytes → IsValid bytes query.column rows → AnswersQuery query before after (Ok tt) → Appends before.out.bytes after.out.bytes (answer_of query.asked rows) }
    ensures checks { (check : CheckGiven) (before after : Readout) (bytes : List ℕ) (rows : List (Option Json)) → IsFile before.shelf.files check.file bytes → (valid : IsValid bytes check.column rows) → JudgesFile check before after (Ok tt) → IsWhole (count_line (length valid.opened.meta.row_groups) (length rows)) before.out after.out }
{}

/// So is a file that is made of rows: exactly these are seen, and as many groups as the writer cuts them into.
pub fn made_files_are_seen()
    ensures begins { (settings : Settings) (text : List ℕ) (n : Group) (rows : List (Option Json)) (file : List ℕ) → IsSettings settings → IsSchema text n → AllByRecursion (IsDocument true) rows → made settings n rows ≡ Ok file → CanBegin column_name file }
    ensures rows { (settings : Settings) (text : List ℕ) (n : Group) (rows : List (Option Json)) (file : List ℕ) → IsSettings settings → IsSchema text n → AllByRecursion (IsDocument true) rows → made settings n rows ≡ Ok file → (f : StoreFile) → IsBegunFrom column_name file f → rows_seen f file ≡ all_found rows }
    ensures lines { (settings : Settings) (text : List ℕ) (n : Group) (rows : List (Option Json)) (file : List ℕ) → IsSettings settings → IsSchema text n → AllByRecursion (IsDocument true) rows → made settings n rows ≡ Ok file → (f : StoreFile) (asked : Asked) → IsBegunFrom column_name file f → lines_seen f asked file ≡ all_found (answer_of asked rows) }
    ensures counts { (settings : Settings) (text : List ℕ) (n : Group) (rows : List (Option Json)) (file : List ℕ) → IsSettings settings → IsSchema text n → AllByRecursion (IsDocument true) rows → made settings n rows ≡ Ok file → (f : StoreFile) → IsBegunFrom column_name file f → Counts f file (length (groups_of (cut_of (is_full settings n) rows))) (length rows) }
    ensures answerable { (settings : Settings) (text : List ℕ) (n : Group) (rows : List (Option Json)) (file : List ℕ) → IsSettings settings → IsSchema text n → AllByRecursion (IsDocument true) rows → made settings n rows ≡ Ok file → (query : FileQuery) (before : Readout) → query.column ≡ column_name → IsFile before.shelf.files query.file file → IsAnswerable query before }
    ensures judgeable { (settings : Settings) (text : List ℕ) (n : Group) (rows : List (Option Json)) (file : List ℕ) → IsSettings settings → IsSchema text n → AllByRecursion (IsDocument true) rows → made settings n rows ≡ Ok file → (check : CheckGiven) (before : Readout) → check.column ≡ column_name → IsFile before.shelf.files check.file file → IsJudgeable check before }
{}

/// A call of the program that ends at 0 did what its words ask for.
pub fn calls_do_their_words()
    ensures load { (words : List (List ℕ)) (load : Load) (before after : World) (input : List ℕ) (files : Files) → AskFor words (loads load) → Works words before after (Ok tt) → before.input.bytes ≡ Some input → before.shelf.files ≡ Some files → CanLoad load → IsLoaded load input (intake_in before) (intake_in after) }
    ensures query { (words : List (List ℕ)) (query : FileQuery) (before after : World) → AskFor words (queries query) → Works words before after (Ok tt) → AnswersQuery query (readout_in before) (readout_in after) (Ok tt) }
    ensures check { (words : List (List ℕ)) (check : CheckGiven) (before after : World) → AskFor words (checks check) → Works words before after (Ok tt) → JudgesFile check (readout_in before) (readout_in after) (Ok tt) }
    ensures scan { (words : List (List ℕ)) (asked : Asked) (before after : World) → AskFor words (prints (scan asked)) → Works words before after (Ok tt) → Streams (scan asked) (pipe_in before) (pipe_in after) (Ok tt) }
{}

/// What words ask a load to write can be written.
pub fn asked_loads_can_be_written()
    ensures { (words : List (List ℕ)) (load : Load) → AskLoad words load → CanLoad load }
{}

/// A file that was loaded is valid and honest, and its rows are the documents of the input. A query over it prints what
/// `scan` prints of these documents, in order, and a check counts them.
/// Where no device fails each is done, or has no memory. Of the files this one alone has to be as the load left it.
pub fn loaded_documents_are_answered()
    ensures same_words { (asked : Asked) (documents : List Json) → answer_of asked (rows_of documents) ≡ answer_over (scan asked) documents }
    ensures holds { (load : Load) (input : List ℕ) (before after : Intake) → IsLoaded load input before after → HoldsAll after.shelf.files load.out input }
    ensures query { (load : Load) (input : List ℕ) (before after : Intake) (query : FileQuery) (from to : Readout) → IsLoaded load input before after → FollowsLoad load after query.file query.column from → AnswersQuery query from to (Ok tt) → OfDocuments input (λ documents. Appends from.out.bytes to.out.bytes (answer_over (scan query.asked) documents)) }
    ensures as_scan { (load : Load) (input : List ℕ) (before after : Intake) (query : FileQuery) (from to : Readout) (p q : Pipe) → IsLoaded load input before after → FollowsLoad load after query.file query.column from → AnswersQuery query from to (Ok tt) → p.input.bytes ≡ Some input → Streams (scan query.asked) p q (Ok tt) → GainTheSame from.out to.out p.out q.out }
    ensures answered { (load : Load) (input : List ℕ) (before after : Intake) (query : FileQuery) (from to : Readout) (done : Result (Unit {0}) FileError) → IsLoaded load input before after → FollowsLoad load after query.file query.column from → AnswersQuery query from to done → (HasFault from to → ⊥) → IsDone done }
    ensures check { (load : Load) (input : List ℕ) (before after : Intake) (check : CheckGiven) (from to : Readout) → IsLoaded load input before after → FollowsLoad load after check.file check.column from → JudgesFile check from to (Ok tt) → OfDocuments input (λ documents. IsWhole (count_line (length (groups_of (cut_of (is_full (settings_of load) load.schema) (rows_of documents)))) (length documents)) from.out to.out) }
    ensures judged { (load : Load) (input : List ℕ) (before after : Intake) (check : CheckGiven) (from to : Readout) (done : Result (Unit {0}) FileError) → IsLoaded load input before after → FollowsLoad load after check.file check.column from → JudgesFile check from to done → (HasFault from to → ⊥) → IsDone done }
{}
