//! Digits, whole numbers, and the bytes of which numbers consist.

ghost use Rattle.std.specs.Prelude.{◌≡◌, All};
ghost use Rattle.std.specs.List.{prefix_len};
ghost use Rattle.byte_parsing.specs.Parse.{front, back};
ghost use Rattle.byte_parsing.specs.Words.{is_digit, IsDigit, is_whole, is_numeric};

/// Whether digits are a whole number: 0, or digits of which the first isn't 0.
pub fn is_whole(digits: &[u8]) -> bool
    ensures { result ≡ is_whole digits.now }
{
    match digits.split_first() {
        Some((first, others)) => *first != b'0' || others.is_empty(),
        None => false,
    }
}

/// Whether numbers may have the byte: a digit, `+`, `-`, `.`, `e` or `E`.
pub fn is_numeric(byte: u8) -> bool
    ensures { result ≡ is_numeric byte }
{
    byte.is_ascii_digit() || matches!(byte, b'+' | b'-' | b'.' | b'e' | b'E')
}

fn digits_len(text: &[u8]) -> usize
    ensures { result ≡ prefix_len is_digit text.now }
{
    text.iter().take_while(|byte| byte.is_ascii_digit()).count()
}

fn number_len(text: &[u8]) -> usize
    ensures { result ≡ prefix_len is_numeric text.now }
{
    text.iter().take_while(|byte| is_numeric(**byte)).count()
}

/// All digits that stand first, and the bytes after them.
#[tactic(auto, using(crate::proofs::Runs::front_taken, crate::proofs::Runs::back_dropped, crate::proofs::Runs::prefix_fits, crate::proofs::WholeNumbers::front_digits))]
pub fn split_digits(text: &[u8]) -> (&[u8], &[u8])
    ensures digits { result.0.now ≡ front is_digit text.now }
    ensures rest { result.1.now ≡ back is_digit text.now }
    ensures all { All IsDigit result.0.now }
{
    text.split_at(digits_len(text))
}

/// All bytes of numbers that stand first, and the bytes after them: where a number stands there, it is
/// these bytes.
#[tactic(auto, using(crate::proofs::Runs::front_taken, crate::proofs::Runs::back_dropped, crate::proofs::Runs::prefix_fits))]
pub fn split_number(text: &[u8]) -> (&[u8], &[u8])
    ensures number { result.0.now ≡ front is_numeric text.now }
    ensures rest { result.1.now ≡ back is_numeric text.now }
{
    text.split_at(number_len(text))
}
