//! The laws of reading: `string_at`, which the readers follow, reads what is written and nothing else,
//! and of UTF-8 bytes it need not judge the text. Each law is a contract of an empty function.

ghost use Rattle.std.specs.Prelude.{◌≡◌, ◌∷◌, ◌++◌, List, ℕ, Some};
ghost use Rattle.std.specs.Str.{IsUtf8};
ghost use Rattle.json_strings.specs.Pieces.{Piece, ArePieces, pieces_spelled};
ghost use Rattle.json_strings.specs.Meaning.{IsString, text_of};
ghost use Rattle.json_strings.specs.Reading.{pieces_at, string_at};

/// A string is read, whatever is after it.
pub fn strings_are_complete()
    ensures { (ps : List Piece) (after : List ℕ) → IsString ps → string_at (pieces_spelled ps after) ≡ Some (ps, after) }
{}

/// What is read is a string, and is written there.
pub fn strings_are_sound()
    ensures { (xs : List ℕ) (ps : List Piece) (rest : List ℕ) → string_at xs ≡ Some (ps, rest) → (xs ≡ pieces_spelled ps rest) × IsString ps }
{}

/// Bytes begin with one string at most.
pub fn strings_are_one()
    ensures { (ps qs : List Piece) (after rest : List ℕ) → IsString ps → IsString qs → pieces_spelled ps after ≡ pieces_spelled qs rest → (ps ≡ qs) × (after ≡ rest) }
{}

/// A string that stands in UTF-8 bytes, wherever its opening quote is, means UTF-8 text.
pub fn strings_in_utf8_mean_utf8()
    ensures { (before after : List ℕ) (ps : List Piece) → ArePieces ps → IsUtf8 (before ++ 34 ∷ pieces_spelled ps after) → IsUtf8 (text_of ps) }
{}

/// Of UTF-8 bytes no text is refused: the pieces of a string are a string.
pub fn utf8_is_judged_once()
    ensures { (before rest : List ℕ) → IsUtf8 (before ++ 34 ∷ rest) → string_at rest ≡ pieces_at rest }
{}
