//! What is written reads back, and what is read is valid. Each law is the contract of an empty function.

ghost use Rattle.std.specs.Prelude.{◌≡◌, true, ◌+◌, ◌-◌, ◌≤◌, ◌<◌, ◌^◌, ◌++◌, ℕ, Bool, List, length, Ok};
ghost use Rattle.std.specs.List.{AllByRecursion, list_all};
ghost use Rattle.std.specs.Str.{is_utf8};
ghost use Rattle.json_tree.specs.Json.{Json, Parts, Fields, array, object, items_of, values_of, depth_of};
ghost use Rattle.json_tree.specs.Text.{text_of};
ghost use Rattle.json_tree.specs.Valid.{IsValid};
ghost use Rattle.variant_meta.specs.Written.{coded_names};
ghost use Rattle.variant_read.specs.Meaning.{max_nesting, means};
ghost use Rattle.variant_write.specs.Chosen.{chosen};
ghost use Rattle.variant_write.specs.Coded.{coded};
ghost use Rattle.variant_write.specs.Conditions.{HasNames, IsWidths, max_text_len, max_width};
ghost use Rattle.variant_write.specs.Dictionaries.{dictionary};
ghost use Rattle.variant_laws.specs.Bytes.{AreBytes};
ghost use Rattle.variant_laws.specs.Documents.{document_in};
ghost use Rattle.variant_laws.specs.Writable.{IsWritable};
ghost use Rattle.variant_write.specs.declared.widths.Widths.{Widths};

/// The bytes that are written for a value mean this value, whatever bytes follow them (VariantEncoding.md, "Value
/// encoding"). The value may stand inside `above` arrays and objects, which count for the depth.
pub fn coded_values_read_back()
    ensures { (ns : List (List ℕ)) (json : Json) (widths : Widths) (rest : List ℕ) (above : ℕ) → length ns < 2 ^ 32 → IsWidths widths → IsValid json → HasNames ns json → above + depth_of json ≤ max_nesting → length (text_of json) ≤ max_text_len → means ns (coded ns json widths ++ rest) above ≡ Ok (json, length (coded ns json widths)) }
{}

/// The metadata that is written for the names of a value and the bytes that are written for the value mean
/// together this value, whatever bytes follow each of them (VariantEncoding.md, "Metadata encoding", "Value
/// encoding").
pub fn documents_read_back()
    ensures { (json : Json) (least : ℕ) (widths : Widths) (after rest : List ℕ) → 1 ≤ least → least ≤ max_width → IsWidths widths → IsValid json → depth_of json ≤ max_nesting → length (text_of json) ≤ max_text_len → document_in (coded_names least (dictionary json) ++ after) (coded (dictionary json) json widths ++ rest) ≡ Ok json }
{}

/// What can be written inside some arrays and objects has parts that can be written: the elements of an array and
/// the values of an object one level deeper, and an object of some of its members in its place.
pub fn parts_are_writable()
    ensures elements { (ns : List (List ℕ)) (above : ℕ) (elements : Parts) → IsWritable ns above (array elements) → AllByRecursion (IsWritable ns (above + 1)) (items_of elements) }
    ensures values { (ns : List (List ℕ)) (above : ℕ) (members : Fields) → IsWritable ns above (object members) → AllByRecursion (IsWritable ns (above + 1)) (values_of members) }
    ensures chosen { (ns : List (List ℕ)) (above : ℕ) (kept : List Bool) (members : Fields) → IsWritable ns above (object members) → IsWritable ns above (object (chosen kept members)) }
{}

/// What bytes mean is a valid value that nests no deeper than it may, and is no longer than the bytes: its texts and
/// names are UTF-8, its numbers are in least scale with at most 38 digits and 38 places, and the names of each object
/// strictly rise and are among the given names. So what is read can be written again, where its text isn't too long.
pub fn values_are_valid()
    ensures { (ns : List (List ℕ)) (bytes : List ℕ) (above : ℕ) (json : Json) (size : ℕ) → list_all is_utf8 ns ≡ true → AreBytes bytes → means ns bytes above ≡ Ok (json, size) → IsValid json × HasNames ns json × (depth_of json ≤ max_nesting - above) × (size ≤ length bytes) }
{}

/// So is what metadata and a value mean together.
pub fn documents_are_valid()
    ensures { (metadata value : List ℕ) (json : Json) → AreBytes value → document_in metadata value ≡ Ok json → IsValid json × (depth_of json ≤ max_nesting) }
{}
