//! The laws of valid values and of printed strings. Each is the contract of an empty function.

ghost use Rattle.std.specs.Prelude.{◌≡◌, ◌∷◌, ◌++◌, List, ℕ, true, false, map};
ghost use Rattle.std.specs.List.{AllByRecursion};
ghost use Rattle.std.specs.Str.{is_utf8};
ghost use Rattle.json_strings.specs.Pieces.{Piece, pieces_spelled};
ghost use Rattle.json_strings.specs.Meaning.{IsString, text_of, lone_of};
ghost use Rattle.vs_bytes.specs.Names.{repeats};
ghost use Rattle.json_tree.specs.Json.{Json, array, object, parts_of, fields_of};
ghost use Rattle.json_tree.specs.Order.{IsOrdered, sorted};
ghost use Rattle.json_tree.specs.Text.{quoted};
ghost use Rattle.json_tree.specs.Valid.{IsValid};

/// A text as it is printed is a string (RFC 8259, section 7) that means this text, and in which each
/// surrogate has its partner.
pub fn printed_texts_are_strings()
    ensures { (text after : List ℕ) → is_utf8 text ≡ true → (ps : List Piece) × (quoted text ++ after ≡ 34 ∷ pieces_spelled ps after) × IsString ps × (text_of ps ≡ text) × (lone_of ps ≡ false) }
{}

/// An array of valid values is valid.
pub fn array_is_valid()
    ensures { (items : List Json) → AllByRecursion IsValid items → IsValid (array (parts_of items)) }
{}

/// An object of valid values is valid, where its names are UTF-8 and no two of them are equal.
pub fn object_is_valid()
    ensures { (members : List (List ℕ × Json)) → AllByRecursion (λ member. (is_utf8 member.0 ≡ true) × IsValid member.1) members → repeats (map (λ member. member.0) members) ≡ false → IsValid (object (fields_of (sorted members))) }
{}

/// In a valid value the names of each object strictly rise.
pub fn valid_is_ordered()
    ensures { (json : Json) → IsValid json → IsOrdered json }
{}
