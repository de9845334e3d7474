//! Names that may stand without quotes: a letter or `_`, then letters, digits and `_`.

ghost use Rattle.std.specs.Prelude.{◌≡◌};
ghost use Rattle.std.specs.List.{list_all, prefix_len};
ghost use Rattle.std.specs.Str.{IsUtf8};
ghost use Rattle.byte_parsing.specs.Parse.{front, back};
ghost use Rattle.byte_parsing.specs.Words.{is_name_start, is_name_byte, is_name, starts_name};

/// Whether a name may begin with the byte: a letter or `_`.
pub fn is_name_start(byte: u8) -> bool
    ensures { result ≡ is_name_start byte }
{
    byte.is_ascii_alphabetic() || byte == b'_'
}

/// Whether a name may have the byte: a letter, a digit or `_`.
pub fn is_name_byte(byte: u8) -> bool
    ensures { result ≡ is_name_byte byte }
{
    is_name_start(byte) || byte.is_ascii_digit()
}

fn are_name_bytes(bytes: &[u8]) -> bool
    ensures { result ≡ list_all is_name_byte bytes.now }
{
    bytes.iter().all(|byte| is_name_byte(*byte))
}

/// Whether the text is a name.
pub fn is_name(text: &[u8]) -> bool
    ensures { result ≡ is_name text.now }
{
    match text.split_first() {
        Some((first, others)) => is_name_start(*first) && are_name_bytes(others),
        None => false,
    }
}

/// Whether the text begins as a name does.
pub fn starts_name(text: &[u8]) -> bool
    ensures { result ≡ starts_name text.now }
{
    match text.first() {
        Some(first) => is_name_start(*first),
        None => false,
    }
}

fn name_len(text: &[u8]) -> usize
    ensures { result ≡ prefix_len is_name_byte text.now }
{
    text.iter().take_while(|byte| is_name_byte(**byte)).count()
}

/// All letters, digits and `_` that stand first, and the bytes after them.
///
/// They are a name where the text begins as one does ([`starts_name`]).
#[tactic(auto, using(crate::proofs::Runs::front_taken, crate::proofs::Runs::back_dropped, crate::proofs::Runs::prefix_fits))]
pub fn split_name(text: &[u8]) -> (&[u8], &[u8])
    ensures name { result.0.now ≡ front is_name_byte text.now }
    ensures rest { result.1.now ≡ back is_name_byte text.now }
    ensures whole { is_name result.0.now ≡ starts_name text.now }
    ensures utf8 { IsUtf8 result.0.now }
{
    text.split_at(name_len(text))
}
