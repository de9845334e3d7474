//! Each law is the contract of an empty function.

ghost use Rattle.std.specs.Prelude.{◌≡◌, ℕ, true, List, length, Option, Ok};
ghost use Rattle.std.specs.List.{AllByRecursion};
ghost use Rattle.json_tree.specs.Json.{Json};
ghost use Rattle.shred_schema.specs.Groups.{Group};
ghost use Rattle.schema_parsing.specs.Grammar.{IsSchema};
ghost use Rattle.file_columns.specs.Columns.{column_of};
ghost use Rattle.written_columns.specs.Written.{written_view};
ghost use Rattle.footer_structs.specs.Footers.{orders_in};
ghost use Rattle.open_group.specs.declared.settings.Settings.{Settings};
ghost use Rattle.open_group.specs.Filling.{is_full};
ghost use Rattle.open_group.specs.OpenGroups.{IsSettings};
ghost use Rattle.store_write.specs.Cutting.{cut_of, groups_of};
ghost use Rattle.store_write.specs.Made.{column_name, paths_of, orders_of, made};
ghost use Rattle.thrift_footer.specs.Opening.{opening};
ghost use Rattle.thrift_footer.specs.declared.opening.Opened.{Opened};
ghost use Rattle.reading_laws.specs.Documents.{IsDocument};
ghost use Rattle.store_laws.specs.ValidFiles.{AllInRange, IsHonest, IsValid};

/// A file that is made of documents violates no rule, and its rows are these documents. Its column is the one of the
/// schema, with the leaves in their places, its groups are those into which the writer cuts the rows, each chunk lies in
/// the file, and the statistics of its chunks are accurate.
pub fn made_files_are_valid()
    ensures valid { (settings : Settings) (text : List ℕ) (n : Group) (rows : List (Option Json)) (file : List ℕ) → IsSettings settings → IsSchema text n → AllByRecursion (IsDocument true) rows → made settings n rows ≡ Ok file → IsValid file column_name rows }
    ensures column { (settings : Settings) (text : List ℕ) (n : Group) (rows : List (Option Json)) (file : List ℕ) (opened : Opened) → IsSettings settings → IsSchema text n → AllByRecursion (IsDocument true) rows → made settings n rows ≡ Ok file → opening file ≡ Ok opened → column_of opened.meta.schema column_name (orders_in opened.meta.column_orders) ≡ Ok (written_view true n (orders_of (paths_of n))) }
    ensures groups { (settings : Settings) (text : List ℕ) (n : Group) (rows : List (Option Json)) (file : List ℕ) (opened : Opened) → IsSettings settings → IsSchema text n → AllByRecursion (IsDocument true) rows → made settings n rows ≡ Ok file → opening file ≡ Ok opened → length opened.meta.row_groups ≡ length (groups_of (cut_of (is_full settings n) rows)) }
    ensures honest { (settings : Settings) (text : List ℕ) (n : Group) (rows : List (Option Json)) (file : List ℕ) → IsSettings settings → IsSchema text n → AllByRecursion (IsDocument true) rows → made settings n rows ≡ Ok file → IsHonest file column_name }
    ensures ranges { (settings : Settings) (text : List ℕ) (n : Group) (rows : List (Option Json)) (file : List ℕ) → IsSettings settings → IsSchema text n → AllByRecursion (IsDocument true) rows → made settings n rows ≡ Ok file → AllInRange file column_name }
{}
