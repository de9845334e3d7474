//! The laws of the words. Each law is a contract of an empty function.

ghost use Rattle.std.specs.Prelude.{◌≡◌, ◌↔◌, ◌++◌, ℕ, List, Bool, true, Some};
ghost use Rattle.byte_parsing.specs.Parse.{front, back, Passes, Stops};
ghost use Rattle.byte_parsing.specs.Words.{is_digit, is_whole, IsWhole, EndsName, AreSpaces, gap_of, past_whole_word};

/// A text is its front and its back; each byte of the front passes the test, and the first byte after it
/// doesn't.
pub fn fronts_are_longest()
    ensures { (p : ℕ → Bool) (xs : List ℕ) → (xs ≡ front p xs ++ back p xs) × Passes p (front p xs) × Stops p (back p xs) }
{}

/// Digits are a whole number exactly where the test says so.
pub fn whole_numbers()
    ensures { (digits : List ℕ) → (Passes is_digit digits × (is_whole digits ≡ true)) ↔ IsWhole digits }
{}

/// A gap is spaces alone.
pub fn gaps_are_spaces()
    ensures { (xs : List ℕ) → AreSpaces (gap_of xs) }
{}

/// The bytes after a whole word are those after its last byte, and no byte of a name is the first of them.
pub fn whole_words_end()
    ensures { (word xs rest : List ℕ) → (past_whole_word word xs ≡ Some rest) ↔ ((xs ≡ word ++ rest) × EndsName rest) }
{}
