//! The laws of numbers and their texts. Each is the contract of an empty function.

ghost use Rattle.std.specs.Prelude.{◌≡◌, List, ℕ, true, Some, Ok};
ghost use Rattle.std.specs.List.{AllByRecursion};
ghost use Rattle.exact_num.specs.Decimal.{Decimal, IsNumber, IsSame};
ghost use Rattle.exact_num.specs.Parsing.{is_numeric, parsed};
ghost use Rattle.exact_num.specs.Reading.{IsRead, read_of};
ghost use Rattle.exact_num.specs.Spelling.{Written, IsSpelling, BeginsNumber};
ghost use Rattle.exact_num.specs.Text.{text_of};

/// One value has one number.
pub fn one_number()
    ensures { (a b : Decimal) → IsNumber a → IsNumber b → IsSame a b → a ≡ b }
{}

/// The parts of a text that `parsed` computes are spelled by it.
pub fn parsing_is_sound()
    ensures { (text : List ℕ) (w : Written) → parsed text ≡ Some w → IsSpelling text w }
{}

/// `parsed` computes the parts of each text that spells a number.
pub fn parsing_is_complete()
    ensures { (text : List ℕ) (w : Written) → IsSpelling text w → parsed text ≡ Some w }
{}

/// A text is spelled in one way.
pub fn spelled_once()
    ensures { (text : List ℕ) (v w : Written) → IsSpelling text v → IsSpelling text w → v ≡ w }
{}

/// A number text begins with a minus or a digit, and is made of the bytes `0` to `9`, `+`, `-`, `.`,
/// `E` and `e`.
pub fn number_bytes()
    ensures first { (text : List ℕ) (w : Written) → IsSpelling text w → BeginsNumber text }
    ensures all { (text : List ℕ) (w : Written) → IsSpelling text w → AllByRecursion (λ x. is_numeric x ≡ true) text }
{}

/// What a text means is computed by `read_of`, wherever a `Number` has that value.
pub fn reading_is_exact()
    ensures { (text : List ℕ) (d : Decimal) → IsNumber d → IsRead text d → read_of text ≡ Ok d }
{}

/// A printed number reads back.
pub fn printed_reads_back()
    ensures { (d : Decimal) → IsNumber d → read_of (text_of d) ≡ Ok d }
{}
