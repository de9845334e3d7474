//! The laws of lines and documents: a line has one value or one first fault, and never both, the
//! canonical text of a value denotes it and nothing else, and that of a document is a line of it. Each
//! law is a contract of an empty function.

ghost use Rattle.std.specs.Prelude.{◌≡◌, ◌⊎◌, ◌*◌, ◌≤◌, List, ℕ, length};
ghost use Rattle.json_tree.specs.Json.{Json};
ghost use Rattle.json_tree.specs.Text.{text_of};
ghost use Rattle.json_tree.specs.Valid.{IsValid};
ghost use Rattle.exact_json.specs.Document.{IsLineValue, IsDocument};
ghost use Rattle.exact_json.specs.Meaning.{Denotes, Spells, IsFirstFault};
ghost use Rattle.exact_json.specs.declared.fault.DocFault.{DocFault};

/// Each line spells a value or has a first fault.
pub fn line_is_judged()
    ensures { (line : List ℕ) → ((json : Json) × Spells line json) ⊎ ((fault : DocFault) × IsFirstFault line fault) }
{}

/// No line has both.
pub fn value_has_no_fault()
    ensures { (line : List ℕ) (json : Json) (fault : DocFault) → Spells line json → IsFirstFault line fault → ⊥ }
{}

/// A line spells one value at most.
pub fn value_is_one()
    ensures { (line : List ℕ) (a b : Json) → Spells line a → Spells line b → a ≡ b }
{}

/// A line has one first fault at most.
pub fn fault_is_one()
    ensures { (line : List ℕ) (a b : DocFault) → IsFirstFault line a → IsFirstFault line b → a ≡ b }
{}

/// The canonical text of a valid value denotes it, whatever its length and however deep it nests.
pub fn canonical_text_denotes()
    ensures { (json : Json) → IsValid json → Denotes (text_of json) json }
{}

/// The canonical text of a valid value denotes no other value.
pub fn canonical_text_denotes_one()
    ensures { (json other : Json) → IsValid json → Denotes (text_of json) other → other ≡ json }
{}

/// Only valid values are denoted.
pub fn denoted_is_valid()
    ensures { (text : List ℕ) (json : Json) → Denotes text json → IsValid json }
{}

/// The canonical text of what a line spells is at most ten times as long as the line.
pub fn canonical_text_is_short()
    ensures { (line : List ℕ) (json : Json) → Spells line json → length (text_of json) ≤ 10 * length line }
{}

/// The canonical text of a document spells it.
pub fn text_is_read_back()
    ensures { (json : Json) → IsDocument json → Spells (text_of json) json }
{}

/// The canonical text of a document spells no other value.
pub fn text_is_of_one()
    ensures { (json other : Json) → IsDocument json → Spells (text_of json) other → other ≡ json }
{}

/// Only a document is spelled by its canonical text.
pub fn read_back_is_document()
    ensures { (json : Json) → Spells (text_of json) json → IsDocument json }
{}

/// What any line spells is a document, apart from the length of its canonical text: a line may be
/// shorter, as `1e37` is.
pub fn value_is_line_value()
    ensures { (line : List ℕ) (json : Json) → Spells line json → IsLineValue json }
{}
