//! The bytes after a byte, and after a word.

ghost use Rattle.std.specs.Prelude.{◌≡◌, cond, None, Some};
ghost use Rattle.vs_bytes.specs.Outcome.{Finds};
ghost use Rattle.byte_parsing.specs.Parse.{past, past_word};
ghost use Rattle.byte_parsing.specs.Words.{word_end, past_whole_word};

use crate::names::is_name_byte;

/// The bytes after one byte, where the text begins with it.
pub fn after_byte(text: &[u8], byte: u8) -> Option<&[u8]>
    ensures { Finds (λ rest. rest.now) result (past byte text.now) }
{
    match text {
        [first, rest @ ..] if *first == byte => Some(rest),
        _ => None,
    }
}

/// The bytes after some bytes, where the text begins with them.
pub fn after_bytes<'a>(text: &'a [u8], bytes: &[u8]) -> Option<&'a [u8]>
    ensures { Finds (λ rest. rest.now) result (past_word bytes.now text.now) }
{
    let mut rest = text;
    for byte in bytes {
        rest = after_byte(rest, *byte)?;
    }
    Some(rest)
}

// Whether a word that ends before `rest` goes on there.
fn goes_on(rest: &[u8]) -> bool
    ensures { word_end rest.now ≡ cond result None (Some rest.now) }
{
    match rest {
        [first, ..] => is_name_byte(*first),
        [] => false,
    }
}

/// The bytes after a whole word: no letter, digit or `_` stands directly after it.
pub fn after_word<'a>(text: &'a [u8], word: &[u8]) -> Option<&'a [u8]>
    ensures { Finds (λ rest. rest.now) result (past_whole_word word.now text.now) }
{
    let rest = after_bytes(text, word)?;
    if goes_on(rest) {
        return None;
    }
    Some(rest)
}
