//! The laws of what is written. Each is the contract of an empty function.

ghost use Rattle.std.specs.Prelude.{◌≡◌, ◌↔◌, ◌≤◌, ◌*◌, ℕ, Bool, true, List, length};
ghost use Rattle.std.specs.List.{Contains, list_all};
ghost use Rattle.std.specs.Str.{is_utf8};
ghost use Rattle.json_tree.specs.Json.{Json, Fields, object, depth_of};
ghost use Rattle.json_tree.specs.Order.{IsOrdered};
ghost use Rattle.json_tree.specs.Text.{text_of};
ghost use Rattle.json_tree.specs.Valid.{IsValid};
ghost use Rattle.variant_meta.specs.Dictionaries.{IsDictionary};
ghost use Rattle.variant_meta.specs.Names.{names_rise};
ghost use Rattle.variant_write.specs.Chosen.{chosen};
ghost use Rattle.variant_write.specs.Coded.{coded};
ghost use Rattle.variant_write.specs.Conditions.{IsWidths, HasNames, max_text_len};
ghost use Rattle.variant_write.specs.Dictionaries.{object_names, dictionary};
ghost use Rattle.variant_write.specs.declared.widths.Widths.{Widths};

/// The bytes of a value are at most six times as many as those of its canonical text, whatever the dictionary and
/// the widths.
pub fn coded_is_short()
    ensures { (names : List (List ℕ)) (json : Json) (widths : Widths) → IsWidths widths → length (coded names json widths) ≤ 6 * length (text_of json) }
{}

/// What the writers ask of an object holds of the object of some of its members, and its text is no longer.
pub fn chosen_members_keep()
    ensures short { (kept : List Bool) (fields : Fields) → length (text_of (object (chosen kept fields))) ≤ length (text_of (object fields)) }
    ensures depth { (kept : List Bool) (fields : Fields) → depth_of (object (chosen kept fields)) ≤ depth_of (object fields) }
    ensures names { (names : List (List ℕ)) (kept : List Bool) (fields : Fields) → HasNames names (object fields) → HasNames names (object (chosen kept fields)) }
    ensures ordered { (kept : List Bool) (fields : Fields) → IsOrdered (object fields) → IsOrdered (object (chosen kept fields)) }
    ensures valid { (kept : List Bool) (fields : Fields) → IsValid (object fields) → IsValid (object (chosen kept fields)) }
{}

/// The dictionary of a value has the names of all its objects and is the only rising list of just these. That of a
/// valid value is UTF-8, and that of a short value is within the bounds of dictionaries.
pub fn dictionary_is_one()
    ensures has { (json : Json) → HasNames (dictionary json) json }
    ensures rises { (json : Json) → names_rise (dictionary json) ≡ true }
    ensures same { (json : Json) (name : List ℕ) → Contains (dictionary json) name ↔ Contains (object_names json) name }
    ensures one { (names : List (List ℕ)) (json : Json) → names_rise names ≡ true → ((name : List ℕ) → Contains names name ↔ Contains (object_names json) name) → names ≡ dictionary json }
    ensures utf8 { (json : Json) → IsValid json → list_all is_utf8 (dictionary json) ≡ true }
    ensures within { (json : Json) → length (text_of json) ≤ max_text_len → IsDictionary (dictionary json) }
{}
