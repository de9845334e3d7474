//! The laws of reading: `filter_at`, the function on lists that the parser follows, reads the filters
//! that the grammar spells and nothing else. Each law is a contract of an empty function.

ghost use Rattle.std.specs.Prelude.{◌≡◌, ◌≤◌, List, [], ℕ, Some, length};
ghost use Rattle.query_tree.specs.Formula.{Formula};
ghost use Rattle.filter_parsing.specs.Grammar.{FilterSyntax, filter_bytes, IsWell, terms, nesting, IsFilter};
ghost use Rattle.filter_parsing.specs.Limits.{most_bytes, most_terms, most_nesting};
ghost use Rattle.filter_parsing.specs.Reading.{filter_at};

/// A derivation of a text within the limits is what is read.
pub fn filters_are_read()
    ensures { (text : List ℕ) (w : FilterSyntax) → text ≡ filter_bytes w [] → IsWell w [] → terms w ≤ most_terms → nesting w ≤ most_nesting → length text ≤ most_bytes → filter_at text ≡ Some w }
{}

/// What is read is a derivation of the text, within the limits.
pub fn filters_are_sound()
    ensures { (text : List ℕ) (w : FilterSyntax) → filter_at text ≡ Some w → (text ≡ filter_bytes w []) × IsWell w [] × (terms w ≤ most_terms) × (nesting w ≤ most_nesting) × (length text ≤ most_bytes) }
{}

/// A text is one filter at most.
pub fn filters_are_one()
    ensures { (text : List ℕ) (f g : Formula) → IsFilter text f → IsFilter text g → f ≡ g }
{}
