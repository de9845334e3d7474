//! White space between the parts of a text.

ghost use Rattle.std.specs.Prelude.{◌≡◌};
ghost use Rattle.json_grammar.specs.Reading.{is_space, past_gap};

/// The bytes after the leading white space (RFC 8259, section 2).
#[inline(always)]
pub fn past_gap(text: &[u8]) -> &[u8]
    ensures { result.now ≡ past_gap text.now }
{
    let mut rest = text;
    while let [first, behind @ ..] = rest {
        if !is_space(*first) {
            return rest;
        }
        rest = behind;
    }
    rest
}

// Most bytes that stand here are above a space, so that is tested first.
fn is_space(byte: u8) -> bool
    ensures { result ≡ is_space byte }
{
    byte <= b' ' && matches!(byte, b' ' | b'\t' | b'\n' | b'\r')
}
