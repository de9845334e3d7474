//! The laws of reading: the functions on lists that a parser follows, `document_at` and its parts,
//! read what the grammar spells and nothing else. Each law is a contract of an empty function.

ghost use Rattle.std.specs.Prelude.{◌≡◌, ◌≤◌, List, ℕ, Some};
ghost use Rattle.json_grammar.specs.Grammar.{Written, IsWrittenAs, nesting};
ghost use Rattle.json_grammar.specs.Reading.{document_at};

/// A derivation of a line, with at most 64 arrays and objects open at once, is what is read.
pub fn reading_is_complete()
    ensures { (line : List ℕ) (w : Written) → IsWrittenAs line w → nesting w ≤ 64 → document_at line ≡ Some w }
{}

/// What is read is a derivation of the line, of such nesting.
pub fn reading_is_sound()
    ensures { (line : List ℕ) (w : Written) → document_at line ≡ Some w → IsWrittenAs line w × (nesting w ≤ 64) }
{}

/// A line has one derivation at most, whatever its nesting.
pub fn written_once()
    ensures { (line : List ℕ) (v w : Written) → IsWrittenAs line v → IsWrittenAs line w → v ≡ w }
{}
