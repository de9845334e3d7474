//! Gaps.

ghost use Rattle.std.specs.Prelude.{◌≡◌};
ghost use Rattle.byte_parsing.specs.Words.{past_gap};

/// The bytes after all spaces that stand first.
pub fn past_spaces(text: &[u8]) -> &[u8]
    ensures { result.now ≡ past_gap text.now }
{
    let mut rest = text;
    while let [first, others @ ..] = rest {
        if *first != b' ' {
            return rest;
        }
        rest = others;
    }
    rest
}
