//! What is written reads back. The law is a contract of an empty function.

ghost use Rattle.std.specs.Prelude.{◌≡◌, ◌≤◌, ◌++◌, ℕ, List, true, Ok};
ghost use Rattle.std.specs.List.{list_all};
ghost use Rattle.std.specs.Str.{is_utf8};
ghost use Rattle.variant_meta.specs.Dictionaries.{IsDictionary};
ghost use Rattle.variant_meta.specs.Metadata.{names};
ghost use Rattle.variant_meta.specs.Written.{coded_names};

/// The metadata that is written for a dictionary of UTF-8 names means these names, whatever bytes follow it.
pub fn written_names_read_back()
    ensures { (ns : List (List ℕ)) (least : ℕ) (rest : List ℕ) → IsDictionary ns → list_all is_utf8 ns ≡ true → 1 ≤ least → least ≤ 4 → names (coded_names least ns ++ rest) ≡ Ok ns }
{}
