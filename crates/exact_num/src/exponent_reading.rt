//! Reading exponents.

ghost use Rattle.std.specs.Prelude.{◌≡◌, ℕ, ◌^◌, cond, min, Some, None};
ghost use Rattle.std.specs.List.{list_all};
ghost use Rattle.exact_num.specs.Parsing.{is_digit, power_of, power_signed, power_digits};
ghost use Rattle.exact_num.specs.Spelling.{Sign, is_minus, digits_value};
ghost use Rattle.exact_num.specs.Wide.{IsCutOption};

use crate::exponent::CutExponent;
use byte_parsing::after_byte;

/// The exponent that the text is, or the exponent 0 where it is empty.
#[tactic(auto, unfolding(crate::specs::Parsing::power_of))]
pub(crate) fn exponent(text: &[u8]) -> Option<CutExponent>
    ensures { IsCutOption result (power_of text.now) }
{
    match text.split_first() {
        Some((mark, rest)) if *mark == b'E' || *mark == b'e' => signed_exponent(rest),
        Some(_) => None,
        None => Some(CutExponent {
            down: false,
            size: 0,
        }),
    }
}

#[tactic(auto, unfolding(crate::specs::Parsing::power_signed))]
fn signed_exponent(text: &[u8]) -> Option<CutExponent>
    ensures { (mark : ℕ) → IsCutOption result (power_signed mark text.now) }
{
    match after_byte(text, b'-') {
        Some(rest) => plain_exponent(true, rest),
        None => match after_byte(text, b'+') {
            Some(rest) => plain_exponent(false, rest),
            None => plain_exponent(false, text),
        },
    }
}

#[tactic(auto, unfolding(crate::specs::Parsing::power_digits))]
fn plain_exponent(down: bool, digits: &[u8]) -> Option<CutExponent>
    ensures { (mark : ℕ) (sign : Sign) → is_minus sign ≡ down → IsCutOption result (power_digits mark sign digits.now) }
{
    if digits.is_empty() {
        return None;
    }
    let size = cut_value(digits)?;
    Some(CutExponent { down, size })
}

// The integer of the digits, or 10 ^ 24 where it is greater; None where a byte is no digit.
#[tactic(auto, using(crate::proofs::Cutting::cut_after))]
fn cut_value(text: &[u8]) -> Option<u128>
    ensures { result ≡ cond (list_all is_digit text.now) (Some (min (digits_value 0 text.now) (10 ^ 24))) None }
{
    let mut value: u128 = 0;
    for byte in text {
        if *byte < b'0' || *byte > b'9' {
            return None;
        }
        value = (value * 10 + u128::from(*byte - b'0')).min(1_000_000_000_000_000_000_000_000);
    }
    Some(value)
}
