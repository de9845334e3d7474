//! Reading the number that stands at the front of a text.
//!
//! The most frequent numbers, of at most 18 digits and without exponent, are read in one pass.

ghost use Rattle.std.specs.Prelude.{◌≡◌, ◌+◌, ◌-◌, ◌*◌, ◌^◌, ◌<◌, ◌≤◌, ◌∷◌, ◌++◌, length, true, false, IfSome};
ghost use Rattle.std.specs.List.{list_all};
ghost use Rattle.exact_num.specs.Leading.{IsLeading, number_run, after_number, is_ended};
ghost use Rattle.exact_num.specs.NumberOf.{decimal_of};
ghost use Rattle.exact_num.specs.Parsing.{is_digit, is_numeric, is_whole};
ghost use Rattle.exact_num.specs.Reading.{Gives, read_of};
ghost use Rattle.exact_num.specs.Spelling.{digits_value, sign_text};

use crate::fault::NumFault;
use crate::number::Number;
use crate::reading::read_number;
use byte_parsing::{is_numeric, is_whole, split_number};

// So many digits always fit 64 bits.
const SHORT: usize = 18;

/// Reads the number that the leading bytes `0` to `9`, `+`, `-`, `.`, `E` and `e` spell, all of them, and
/// gives the bytes after them.
pub fn read_leading(text: &[u8]) -> (Result<Number, NumFault>, &[u8])
    ensures number { Gives decimal_of result.0 (read_of (number_run text.now)) }
    ensures after { result.1.now ≡ after_number text.now }
{
    match short_number(text) {
        Some((number, rest)) => (Ok(number), rest),
        None => {
            let (run, rest) = split_number(text);
            (read_number(run), rest)
        }
    }
}

// The number, if it is one of at most 18 digits without exponent, and the bytes after it.
#[tactic(auto, using(crate::proofs::LeadingNumbers::signed_leads))]
fn short_number(text: &[u8]) -> Option<(Number, &[u8])>
    ensures { IfSome result (λ r. IsLeading false text.now (decimal_of r.0) r.1.now) }
{
    let (minus, unsigned) = split_sign(text);
    short_unsigned(minus, unsigned)
}

// Whether a minus leads, and the bytes after it.
fn split_sign(text: &[u8]) -> (bool, &[u8])
    ensures { text.now ≡ sign_text result.0 ++ result.1.now }
{
    match text {
        [b'-', rest @ ..] => (true, rest),
        _ => (false, text),
    }
}

fn short_unsigned(minus: bool, text: &[u8]) -> Option<(Number, &[u8])>
    ensures { IfSome result (λ r. IsLeading minus text.now (decimal_of r.0) r.1.now) }
{
    let (size, whole, rest) = short_digits(0, text, SHORT);
    if !is_whole(whole) {
        return None;
    }
    match rest {
        [b'.', more @ ..] => short_decimal(minus, size, whole, more),
        _ => {
            if !is_ended(rest) {
                return None;
            }
            Some((Number::of_size(minus, u128::from(size), 0), rest))
        }
    }
}

// The number whose digits before the point are `whole`, and amount to `size`.
fn short_decimal<'a>(
    minus: bool,
    size: u64,
    whole: &[u8],
    text: &'a [u8],
) -> Option<(Number, &'a [u8])>
    requires all { list_all is_digit whole.now ≡ true }
    requires whole { is_whole whole.now ≡ true }
    requires value { size ≡ digits_value 0 whole.now }
    requires short { length whole.now ≤ 18 }
    requires small { (size + 1) * 10 ^ (18 - length whole.now) ≤ 10 ^ 18 }
    ensures { IfSome result (λ r. IsLeading minus (whole.now ++ 46 ∷ text.now) (decimal_of r.0) r.1.now) }
{
    let (size, fraction, rest) = short_digits(size, text, SHORT - whole.len());
    if fraction.is_empty() || !is_ended(rest) {
        return None;
    }
    Some((
        Number::of_size(minus, u128::from(size), fraction.len() as u8),
        rest,
    ))
}

// Whether no byte of a number leads.
fn is_ended(text: &[u8]) -> bool
    ensures { result ≡ is_ended text.now }
{
    match text {
        [first, ..] => !is_numeric(*first),
        [] => true,
    }
}

// Leading digits, at most `most` of them, with the integer that they and the digits of `before` amount
// to, and the bytes after them.
fn short_digits(before: u64, text: &[u8], most: usize) -> (u64, &[u8], &[u8])
    requires most { most ≤ 18 }
    requires small { (before + 1) * 10 ^ most ≤ 10 ^ 18 }
    ensures text { text.now ≡ result.1.now ++ result.2.now }
    ensures all { list_all is_digit result.1.now ≡ true }
    ensures value { result.0 ≡ digits_value before result.1.now }
    ensures most { length result.1.now ≤ most }
    ensures small { (result.0 + 1) * 10 ^ (most - length result.1.now) ≤ 10 ^ 18 }
{
    let end = text.len().min(most);
    let mut value = before;
    let mut at = 0;
    while at < end && text[at].is_ascii_digit() {
        value = value * 10 + u64::from(text[at] - b'0');
        at += 1;
    }
    let (digits, rest) = text.split_at(at);
    (value, digits, rest)
}
