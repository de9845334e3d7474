//! Reading JSON numbers (RFC 8259, section 6).

ghost use Rattle.std.specs.Prelude.{◌≡◌, ℕ, ◌*◌, ◌^◌, ◌<◌, ◌++◌, MatchOption, length, All, Some, IfOk, IfErr, IfSome, option_map};
ghost use Rattle.exact_num.specs.Decimal.{max_digits, numbered, signed};
ghost use Rattle.exact_num.specs.NumberOf.{decimal_of};
ghost use Rattle.exact_num.specs.Parsing.{parsed, unsigned, pointed, ended};
ghost use Rattle.exact_num.specs.Reading.{Gives, IsRead, IsFault, number_of, read_from, read_of};
ghost use Rattle.exact_num.specs.Spelling.{Exponent, IsDigit, digits_value};
ghost use Rattle.exact_num.specs.Wide.{IsCut, IsWide};

use crate::digit_runs::{small_value, wide_value};
use crate::exponent::CutExponent;
use crate::exponent_reading::exponent;
use crate::fault::NumFault;
use crate::number::Number;
use crate::placing::placed;
use crate::significand::Significand;
use byte_parsing::{after_byte, is_whole, split_digits};

/// The number that `text` spells, whatever its length and its exponent: nothing is rounded.
///
/// It takes time in proportion to the length, and no memory.
#[tactic(auto, using(crate::proofs::Readings::read_ok, crate::proofs::Readings::read_err))]
pub fn read_number(text: &[u8]) -> Result<Number, NumFault>
    ensures ok { IfOk result (λ n. IsRead text.now (decimal_of n)) }
    ensures err { IfErr result (IsFault text.now) }
    ensures exact { Gives decimal_of result (read_of text.now) }
{
    read_signed(text)
}

#[tactic(auto, unfolding(crate::specs::Parsing::parsed))]
fn read_signed(text: &[u8]) -> Result<Number, NumFault>
    ensures { Gives decimal_of result (read_from (parsed text.now)) }
{
    match after_byte(text, b'-') {
        Some(rest) => read_unsigned(true, rest),
        None => read_unsigned(false, text),
    }
}

#[tactic(auto, unfolding(crate::specs::Parsing::unsigned))]
fn read_unsigned(minus: bool, text: &[u8]) -> Result<Number, NumFault>
    ensures { Gives decimal_of result (read_from (unsigned minus text.now)) }
{
    let (whole, rest) = split_digits(text);
    if !is_whole(whole) {
        return Err(NumFault::NotNumber);
    }
    match after_byte(rest, b'.') {
        Some(more) => read_fraction(minus, whole, more),
        None => read_end(minus, whole, &[], rest),
    }
}

#[tactic(auto, unfolding(crate::specs::Parsing::pointed))]
fn read_fraction(minus: bool, whole: &[u8], text: &[u8]) -> Result<Number, NumFault>
    requires { All IsDigit whole.now }
    ensures { Gives decimal_of result (read_from (pointed minus whole.now text.now)) }
{
    let (fraction, rest) = split_digits(text);
    if fraction.is_empty() {
        return Err(NumFault::NotNumber);
    }
    read_end(minus, whole, fraction, rest)
}

#[tactic(auto, unfolding(crate::specs::Parsing::ended))]
fn read_end(minus: bool, whole: &[u8], fraction: &[u8], rest: &[u8]) -> Result<Number, NumFault>
    requires whole { All IsDigit whole.now }
    requires fraction { All IsDigit fraction.now }
    ensures { Gives decimal_of result (read_from (ended minus whole.now fraction.now rest.now)) }
{
    match exponent(rest) {
        Some(exponent) => valued(minus, whole, fraction, exponent).ok_or(NumFault::TooWide),
        None => Err(NumFault::NotNumber),
    }
}

fn valued(minus: bool, whole: &[u8], fraction: &[u8], exponent: CutExponent) -> Option<Number>
    requires whole { All IsDigit whole.now }
    requires fraction { All IsDigit fraction.now }
    ensures { (e : Exponent) → IsCut exponent e → option_map decimal_of result ≡ number_of (record { negative = minus; whole = whole.now; fraction = fraction.now; power = e }) }
{
    if exponent.size == 0 {
        if let Some(number) = plain(minus, whole, fraction) {
            return Some(number);
        }
    }
    scaled(minus, whole, fraction, exponent)
}

// The number without an exponent, if 38 digits in all are enough to read it.
fn plain(minus: bool, whole: &[u8], fraction: &[u8]) -> Option<Number>
    requires whole { All IsDigit whole.now }
    requires fraction { All IsDigit fraction.now }
    ensures { IfSome result (λ n. numbered minus (digits_value 0 (whole.now ++ fraction.now)) (length fraction.now) ≡ Some (decimal_of n)) }
{
    if fraction.len() > 38 {
        return None;
    }
    let size = plain_size(whole, fraction)?;
    Some(Number::of_size(minus, size, fraction.len() as u8))
}

#[tactic(auto, using(crate::proofs::Values::value_append))]
fn plain_size(whole: &[u8], fraction: &[u8]) -> Option<u128>
    requires whole { All IsDigit whole.now }
    requires fraction { All IsDigit fraction.now }
    ensures value { IfSome result (λ n. n ≡ digits_value 0 (whole.now ++ fraction.now)) }
    ensures size { IfSome result (λ n. n < 10 ^ max_digits) }
{
    match small_value(0, whole) {
        Some(front) => match small_value(front, fraction) {
            Some(all) => Some(u128::from(all)),
            None => wide_value(u128::from(front), fraction),
        },
        None => wide_value(wide_value(0, whole)?, fraction),
    }
}

fn scaled(minus: bool, whole: &[u8], fraction: &[u8], exponent: CutExponent) -> Option<Number>
    requires whole { All IsDigit whole.now }
    requires fraction { All IsDigit fraction.now }
    ensures { (e : Exponent) → IsCut exponent e → option_map decimal_of result ≡ number_of (record { negative = minus; whole = whole.now; fraction = fraction.now; power = e }) }
{
    let all = match significand(whole, fraction) {
        Some(all) => all,
        None => return None,
    };
    if all.digits == 0 {
        return Some(Number::ZERO);
    }
    let places = fraction.len() as u128;
    if exponent.down {
        placed(minus, all.digits, all.zeros, places + exponent.size)
    } else {
        placed(minus, all.digits, all.zeros + exponent.size, places)
    }
}

#[tactic(auto, using(crate::proofs::Values::value_append, crate::proofs::Values::wide_append))]
fn significand(whole: &[u8], fraction: &[u8]) -> Option<Significand>
    requires whole { All IsDigit whole.now }
    requires fraction { All IsDigit fraction.now }
    ensures value { MatchOption result (IsWide (digits_value 0 (whole.now ++ fraction.now))) (λ s. s.digits * 10 ^ s.zeros ≡ digits_value 0 (whole.now ++ fraction.now)) }
    ensures zeros { IfSome result (λ s. s.zeros < 2 ^ 66) }
{
    match Significand::ZERO.with_digits(whole) {
        Some(front) => front.with_digits(fraction),
        None => None,
    }
}
